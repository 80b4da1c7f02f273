use mip_nonce::Secrets;
use mip_outside::Claim;
use mip_words::{Address, Bytes, Moment, Prefix, Shield};

/// What a mobile was asked for.
#[derive(Drop)]
pub enum Asked {
    /// A packet was handed to it.
    Take {
        number: u64,
        shield: Option<Shield>,
        packet: Bytes,
    },
    /// It was to send data.
    Send {
        to: Address,
        proto: u8,
        payload: Bytes,
    },
    /// It was to ask for a binding of this home to be refreshed.
    Refresh {
        home: Address,
    },
    /// Time went on.
    Tick,
    /// A router advertised a prefix.
    Attach {
        prefix: Prefix,
        of_home: Claim,
        of_address: Claim,
    },
    /// It left its link.
    Leave {
        of_home: Claim,
    },
    /// It was to solicit the prefixes of its home link.
    Ask,
    /// It lost all that it kept.
    Restart {
        secrets: Secrets,
    },
}

/// A call of a mobile.
#[derive(Drop)]
pub struct Called {
    pub at: Moment,
    pub asked: Asked,
}
