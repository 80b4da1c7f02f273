ghost use Rattle.std.specs.Prelude.{◌≡◌, ◌+◌, ◌≤◌, nat_lt, if◌then◌else◌, Some, None, IfNone};

/// Why a line is not in the grammar.
#[derive(Clone, Copy, Debug, PartialEq, Eq)]
pub enum Reason {
    /// No line of that word and number of fields may stand there.
    Form,
    /// An unknown name or one of the wrong kind, a name to be declared that is taken or ill-formed, or a test that is neither
    /// `home` nor `careof`.
    Name,
    /// A number out of its range, or a protocol that no payload may have.
    Number,
    /// No address, one that is not routable, or one on no declared link.
    Address,
    /// No digits of the stated length, or an odd or too great number of them.
    Hex,
    /// Too many links, nodes, mobiles, outsiders or events.
    Limit,
    /// A declaration that contradicts an earlier one, or a Care-of Test that is missing or not wanted.
    Clash,
    /// An injected packet of fewer than 40 bytes, or not of version 6.
    Packet,
    /// The waits are too long together.
    Time,
    /// Too many packets are carried together.
    Carry,
}

/// This reason where there is cause.
pub fn refused(cause: bool, why: Reason) -> Option<Reason>
    ensures { result ≡ (if cause then Some why else None) }
{
    if cause { Some(why) } else { None }
}

/// This reason where so many and some more pass the most that there may be.
pub fn too_many(most: u32, sum: u32, more: u32, why: Reason) -> Option<Reason>
    ensures value { result ≡ (if nat_lt most (sum + more) then Some why else None) }
    ensures within { IfNone result (sum + more ≤ most) }
{
    if (most as u64) < sum as u64 + more as u64 {
        Some(why)
    } else {
        None
    }
}
