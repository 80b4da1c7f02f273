//! The text of the claims of a history, piece by piece.

ghost use Rattle.std.specs.Prelude.{◌≡◌, ◌++◌, false, IfOk, OnOk};
ghost use Rattle.mip_proxynd.specs.Claims.{rows_in};
ghost use Rattle.mip_proxynd.specs.Fields.{is_group};
ghost use Rattle.mip_proxynd.specs.Text.{who_text, advert_line, advert_of, adverts, answered, answer_of, asked_text, end_text, claims_text};

use crate::address_claims::AddressClaims;
use crate::claim::Claim;
use crate::fields::is_group;
use crate::holding::put_holds;
use crate::packets::{advert_packet, answer_packet, solicit_packet};
use mip_entries::Entry;
use mip_lines::{put_line, put_line_hex};
use mip_symbols::{Declaration, link_name, node_name, outsider_name};
use mip_words::{Address, Bytes, Holder, Memory};
use std::alloc::Global;

/// The name of the holder with this number.
#[tactic(auto, unfolding(crate::specs::Text::who_text))]
fn who_name(ds: &[Declaration], who: u8) -> &[u8]
    ensures { result.now ≡ who_text ds.now who }
{
    match Holder::of(who) {
        Holder::Node(node) => node_name(ds, node),
        Holder::Outsider(outsider) => outsider_name(ds, outsider),
    }
}

/// Appends the line of an advertisement.
fn put_advert(
    alloc: Global,
    out: &mut Bytes,
    ds: &[Declaration],
    claim: Claim,
) -> Result<(), Memory>
    requires { is_group claim.address ≡ false }
    ensures { OnOk result (out.new ≡ out.old ++ advert_line ds.now claim) }
{
    let packet = advert_packet(alloc, ds, claim.who, claim.address)?;
    put_line_hex(
        out,
        b"advert",
        &[link_name(ds, claim.link), who_name(ds, claim.who)],
        packet.as_slice(),
    )
}

/// Appends the line of an entry, where it is a claim that is advertised.
fn put_entry(
    alloc: Global,
    out: &mut Bytes,
    ds: &[Declaration],
    entry: &Entry,
) -> Result<(), Memory>
    ensures { OnOk result (out.new ≡ out.old ++ advert_of ds.now entry.now) }
{
    let Entry::Claimed { who, link, address } = entry else {
        return Ok(());
    };
    if is_group(*address) {
        return Ok(());
    }
    let claim = Claim {
        link: *link,
        address: *address,
        who: *who,
    };
    put_advert(alloc, out, ds, claim)
}

/// Appends the lines of entries, in order.
fn put_adverts(
    alloc: Global,
    out: &mut Bytes,
    ds: &[Declaration],
    entries: &[Entry],
) -> Result<(), Memory>
    ensures { OnOk result (out.new ≡ out.old ++ adverts ds.now entries.now) }
{
    for entry in entries {
        put_entry(alloc, out, ds, entry)?;
    }
    Ok(())
}

/// Appends what the next entries of a history advertise, and keeps which claims stand behind them.
pub fn tell_entries(
    alloc: Global,
    out: &mut Bytes,
    ds: &[Declaration],
    claims: &mut AddressClaims,
    entries: &[Entry],
) -> Result<(), Memory>
    ensures adverts { OnOk result (out.new ≡ out.old ++ adverts ds.now entries.now) }
    ensures stands { OnOk result (claims.new ≡ rows_in claims.old entries.now) }
{
    put_adverts(alloc, out, ds, entries)?;
    claims.take(entries)
}

/// Appends the question who holds an address, and its holder's answer.
fn put_answered(
    alloc: Global,
    out: &mut Bytes,
    ds: &[Declaration],
    address: Address,
    claim: Claim,
) -> Result<(), Memory>
    requires { is_group address ≡ false }
    ensures { OnOk result (out.new ≡ out.old ++ answered ds.now address claim) }
{
    let question = solicit_packet(alloc, address)?;
    put_line_hex(
        out,
        b"solicit",
        &[link_name(ds, claim.link)],
        question.as_slice(),
    )?;
    let answer = answer_packet(alloc, ds, claim.who, address)?;
    put_line_hex(
        out,
        b"answer",
        &[who_name(ds, claim.who)],
        answer.as_slice(),
    )
}

/// Appends what is answered where an address is asked for.
fn put_answer(
    alloc: Global,
    out: &mut Bytes,
    ds: &[Declaration],
    address: Address,
    claim: Option<Claim>,
) -> Result<(), Memory>
    ensures { OnOk result (out.new ≡ out.old ++ answer_of ds.now address claim) }
{
    let Some(claim) = claim else {
        return put_line(out, &[b"silent"]);
    };
    if is_group(address) {
        return put_line(out, &[b"silent"]);
    }
    put_answered(alloc, out, ds, address, claim)
}

/// Appends what is answered, where something is asked for.
fn put_asked(
    alloc: Global,
    out: &mut Bytes,
    ds: &[Declaration],
    claims: &AddressClaims,
    ask: Option<Address>,
) -> Result<(), Memory>
    ensures { OnOk result (out.new ≡ out.old ++ asked_text ds.now claims.now ask) }
{
    match ask {
        Some(address) => put_answer(alloc, out, ds, address, claims.claim(address)),
        None => Ok(()),
    }
}

/// Appends what stands behind the advertisements: the claims that stand, by link in the order of declaration and then by
/// address, and what is answered where an address is asked for.
pub fn tell_end(
    alloc: Global,
    out: &mut Bytes,
    ds: &[Declaration],
    claims: &AddressClaims,
    ask: Option<Address>,
) -> Result<(), Memory>
    ensures { OnOk result (out.new ≡ out.old ++ end_text ds.now claims.now ask) }
{
    put_holds(out, ds, claims)?;
    put_asked(alloc, out, ds, claims, ask)
}

/// The text of the claims of a history.
pub fn neighbours(
    alloc: Global,
    ds: &[Declaration],
    history: &[Entry],
    ask: Option<Address>,
) -> Result<Bytes, Memory>
    ensures { IfOk result (λ text. text ≡ claims_text ds.now history.now ask) }
{
    let mut out = Bytes::new(alloc);
    let mut claims = AddressClaims::new(alloc);
    tell_entries(alloc, &mut out, ds, &mut claims, history)?;
    tell_end(alloc, &mut out, ds, &claims, ask)?;
    Ok(out)
}
