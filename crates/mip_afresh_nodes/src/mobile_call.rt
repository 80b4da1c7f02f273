use mip_nonce::Secrets;
use mip_words::Prefix;

/// What a mobile is asked for, whatever its correspondent part has accepted.
#[derive(Drop)]
pub(crate) enum MobileCall {
    /// Time goes on, and due work is done.
    Tick,
    /// A router advertises a prefix.
    Attach(Prefix),
    /// It leaves its link.
    Leave,
    /// It is to solicit the prefixes of its home link.
    Ask,
    /// It begins its next life, with these secrets.
    Restart(Secrets),
}
