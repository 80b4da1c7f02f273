/// What a correspondent keeps of the home that a packet is about: that of the Home Address option, else its source.
#[derive(Clone, Copy, Debug, PartialEq, Eq)]
pub struct Kept {
    /// A binding from the Home Address option to the source stands.
    pub holds: bool,
    /// The sequence that an update of the home has to come after, while one is kept.
    pub floor: Option<u16>,
    /// There is no room for the home.
    pub is_full: bool,
    /// How many bindings a home may have.
    pub numbers: u8,
}
