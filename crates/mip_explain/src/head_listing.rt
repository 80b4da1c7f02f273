ghost use Rattle.std.specs.Prelude.{◌≡◌, ◌++◌, OnOk};
ghost use Rattle.mip_explain.specs.Listing.{fixed_lines, extension_lines};

use crate::rows::{put_address_line, put_number_line, put_optional_line};
use mip_ipv6::Head;
use mip_words::{Bytes, Memory};

/// Appends the lines of the header that every packet has.
#[tactic(auto, unfolding(crate::specs::Listing::fixed_lines))]
pub(crate) fn put_fixed(out: &mut Bytes, head: &Head) -> Result<(), Memory>
    ensures { OnOk result (out.new ≡ out.old ++ fixed_lines head.now) }
{
    put_address_line(out, b"source", head.source)?;
    put_address_line(out, b"destination", head.destination)?;
    put_number_line(out, b"hop", u64::from(head.hop))?;
    put_number_line(out, b"class", u64::from(head.class))?;
    put_number_line(out, b"flow", u64::from(head.flow))
}

/// Appends the lines of the headers that may be absent, and that of the body's number.
#[tactic(auto, unfolding(crate::specs::Listing::extension_lines))]
pub(crate) fn put_extensions(out: &mut Bytes, head: &Head) -> Result<(), Memory>
    ensures { OnOk result (out.new ≡ out.old ++ extension_lines head.now) }
{
    put_optional_line(out, b"route", head.route)?;
    put_optional_line(out, b"home", head.home)?;
    put_number_line(out, b"proto", u64::from(head.proto))
}
