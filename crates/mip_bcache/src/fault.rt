/// Why a cache took no acceptance.
#[derive(Clone, Copy, Debug, PartialEq, Eq)]
pub enum AcceptFault {
    /// There is no room for another home.
    Full,
}
