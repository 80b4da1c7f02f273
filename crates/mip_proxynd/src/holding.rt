//! The lines of the claims that stand.

ghost use Rattle.std.specs.Prelude.{◌≡◌, ◌++◌, OnOk};
ghost use Rattle.mip_proxynd.specs.Text.{holds_line, holds_of, holds_on, holds};

use crate::address_claims::AddressClaims;
use crate::claim::Claim;
use crate::packets::layer_of;
use mip_lines::put_line_hex;
use mip_symbols::{Declaration, Sort, count, link_name};
use mip_words::{Bytes, Memory};

/// Appends the line of a claim.
fn put_claim(out: &mut Bytes, ds: &[Declaration], claim: Claim) -> Result<(), Memory>
    ensures { OnOk result (out.new ≡ out.old ++ holds_line ds.now claim) }
{
    put_line_hex(
        out,
        b"holds",
        &[link_name(ds, claim.link), &claim.address.digits()],
        &layer_of(claim.who),
    )
}

/// Appends the line of what stands of an address, where this is a claim on the link.
fn put_row(
    out: &mut Bytes,
    ds: &[Declaration],
    link: usize,
    row: Option<Claim>,
) -> Result<(), Memory>
    ensures { OnOk result (out.new ≡ out.old ++ holds_of ds.now link row) }
{
    let Some(claim) = row else {
        return Ok(());
    };
    if claim.link.0 as usize == link {
        put_claim(out, ds, claim)
    } else {
        Ok(())
    }
}

/// Appends the lines of the claims that stand on a link, by address.
fn put_link(
    out: &mut Bytes,
    ds: &[Declaration],
    claims: &AddressClaims,
    link: usize,
) -> Result<(), Memory>
    ensures { OnOk result (out.new ≡ out.old ++ holds_on ds.now claims.now link) }
{
    for row in claims.rows.values() {
        put_row(out, ds, link, *row)?;
    }
    Ok(())
}

/// Appends the lines of all claims that stand, by link in the order of declaration and then by address.
#[tactic(auto, unfolding(crate::specs::Text::holds))]
pub(crate) fn put_holds(
    out: &mut Bytes,
    ds: &[Declaration],
    claims: &AddressClaims,
) -> Result<(), Memory>
    ensures { OnOk result (out.new ≡ out.old ++ holds ds.now claims.now) }
{
    for link in 0..count(ds, Sort::Link) {
        put_link(out, ds, claims, link)?;
    }
    Ok(())
}
