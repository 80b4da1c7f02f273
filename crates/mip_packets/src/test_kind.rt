/// The address that a test is of.
#[derive(Clone, Copy, Debug, PartialEq, Eq)]
pub enum TestKind {
    /// The home address.
    Home,
    /// The care-of address.
    Careof,
}
