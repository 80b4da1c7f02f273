/// Why a trial took no step.
#[derive(Clone, Copy, Debug, PartialEq, Eq)]
pub enum Refused {
    /// The test has another cookie, or was not asked for.
    Cookie,
    /// A token was received 210,000 ms ago or earlier (MAX_TOKEN_LIFETIME).
    Old,
    /// The message is from another peer, or acknowledges another sequence.
    NotMine,
    /// Three updates were made less than 1,000 ms before (MAX_UPDATE_RATE).
    TooSoon,
}
