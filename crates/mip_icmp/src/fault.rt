/// Why bytes are no message of this crate: the first fault in this order.
#[derive(Clone, Copy, Debug, PartialEq, Eq)]
pub enum IcmpFault {
    /// Fewer bytes than the fixed part of the type has.
    Short,
    /// The checksum does not hold.
    Checksum,
    /// A type that Mobile IPv6 does not use, or a code that is not 0.
    Unknown { kind: u8, code: u8 },
    /// At this byte of the message begins an option of a wrong length, or a list that is no list of addresses.
    Option { place: usize },
}
