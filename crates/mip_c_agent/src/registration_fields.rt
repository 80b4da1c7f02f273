ghost use Rattle.std.specs.Prelude.{◌≡◌};
ghost use Rattle.mip_c_agent.specs.Registrations.{fields_of};

use mip_rules_agent::HomeRow;

/// A home that is registered at an agent (RFC 6275 section 10.1).
#[repr(C)]
#[derive(Clone, Copy)]
pub struct RegistrationFields {
    /// The home address.
    pub home: [u8; 16],
    /// The care-of address.
    pub careof: [u8; 16],
    /// The sequence number of the update.
    pub sequence: u16,
    /// The end of the registration, in milliseconds.
    pub end: u64,
}

/// The fields of a home.
pub fn fields_of(row: &HomeRow) -> RegistrationFields
    ensures { result ≡ fields_of row.now }
{
    RegistrationFields {
        home: row.home.bytes(),
        careof: row.careof.bytes(),
        sequence: row.sequence,
        end: row.end.0,
    }
}
