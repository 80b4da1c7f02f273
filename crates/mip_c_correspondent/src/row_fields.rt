ghost use Rattle.std.specs.Prelude.{◌≡◌};
ghost use Rattle.mip_c_correspondent.specs.Rows.{fields_of};

use mip_bcache::Row;

/// A row of a binding cache (RFC 6275 section 9.1).
#[repr(C)]
#[derive(Clone, Copy)]
pub struct RowFields {
    /// The home address.
    pub home: [u8; 16],
    /// The binding number; 0 where a home has one binding.
    pub binding: u8,
    /// The care-of address; the home address where the binding is deleted.
    pub careof: [u8; 16],
    /// The sequence number of the update.
    pub sequence: u16,
    /// The end of the binding, in milliseconds.
    pub end: u64,
    /// How long the sequence number is kept, in milliseconds.
    pub kept_until: u64,
}

/// The fields of a row.
pub fn fields_of(row: &Row) -> RowFields
    ensures { result ≡ fields_of row.now }
{
    RowFields {
        home: row.home.bytes(),
        binding: row.number,
        careof: row.careof.bytes(),
        sequence: row.sequence,
        end: row.end.0,
        kept_until: row.kept_until.0,
    }
}
