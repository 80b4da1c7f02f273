use mip_provenance::Name;

/// Who named a token first. The name stands first: so the row takes 16 bytes less.
#[derive(Clone, Copy)]
pub struct Named {
    pub name: Name,
    /// The packet.
    pub number: u64,
    /// Somebody named it otherwise.
    pub otherwise: bool,
}
