//! The lines of what outsiders do.

ghost use Rattle.std.specs.Prelude.{◌≡◌, option_copied};
ghost use Rattle.mip_lines.specs.Cutting.{texts};
ghost use Rattle.mip_schedule.specs.BindParts.{bind_ends, bind_numbers, number_named};
ghost use Rattle.mip_schedule.specs.EventRows as rows;
ghost use Rattle.mip_symbols.specs.Faults.{GivesLine};

use crate::event::Event;
use crate::kept_address::KeptAddress;
use crate::kept_ends::KeptEnds;
use crate::update_ends::UpdateEnds;
use mip_symbols::kinds::{
    address, bytes, careof, cookie, link, outsider, some_packet, u8_in, u16_in, u32_in,
};
use mip_symbols::{FewDeclarations, LineFault, Reason};
use mip_words::LinkId;
use std::alloc::Global;

#[tactic(auto, unfolding(crate::specs::EventRows::inject_row))]
pub fn inject_row(
    alloc: Global,
    ds: &FewDeclarations<'_>,
    fields: &[&[u8]],
) -> Result<Event, LineFault>
    ensures { GivesLine (λ e. e) result (rows.inject_row ds.now (texts fields.now)) }
{
    let [by, on, packet] = fields else {
        return Err(LineFault::Bad(Reason::Form));
    };
    Ok(Event::Inject {
        outsider: outsider(ds, by)?,
        link: link(ds, on)?,
        packet: bytes(alloc, 2048, packet)?,
    })
}

#[tactic(auto, unfolding(crate::specs::EventRows::probe_row))]
pub fn probe_row(ds: &FewDeclarations<'_>, fields: &[&[u8]]) -> Result<Event, Reason>
    ensures { result ≡ rows.probe_row ds.now (texts fields.now) }
{
    let [by, on, which, source, peer, cookie_field] = fields else {
        return Err(Reason::Form);
    };
    Ok(Event::Probe {
        outsider: outsider(ds, by)?,
        link: link(ds, on)?,
        careof: careof(which)?,
        source: KeptAddress::new(address(source)?),
        peer: KeptAddress::new(address(peer)?),
        cookie: cookie(cookie_field)?,
    })
}

#[tactic(auto, unfolding(crate::specs::BindParts::bind_ends))]
fn bind_ends(source: &[u8], peer: &[u8], home: &[u8], away: &[u8]) -> Result<UpdateEnds, Reason>
    ensures { result ≡ bind_ends source.now peer.now home.now away.now }
{
    Ok(UpdateEnds {
        source: address(source)?,
        peer: address(peer)?,
        home: address(home)?,
        careof: address(away)?,
    })
}

/// The binding number that a field names, 0 where there is no field.
fn number_named(field: Option<&[u8]>) -> Result<u8, Reason>
    ensures { result ≡ number_named (option_copied field.entry) }
{
    match field {
        Some(field) => u8_in(0, 7, field),
        None => Ok(0),
    }
}

#[tactic(auto, unfolding(crate::specs::BindParts::bind_numbers))]
fn bind_numbers(
    outsider: u8,
    link: LinkId,
    ends: KeptEnds,
    sequence: &[u8],
    lifetime: &[u8],
    home_test: &[u8],
    careof_test: &[u8],
    named: Option<&[u8]>,
) -> Result<Event, Reason>
    ensures { result ≡ bind_numbers outsider link ends sequence.now lifetime.now home_test.now careof_test.now (option_copied named.entry) }
{
    Ok(Event::Bind {
        outsider,
        link,
        ends,
        sequence: u16_in(0, u16::MAX, sequence)?,
        lifetime: u16_in(0, u16::MAX, lifetime)?,
        home_test: u32_in(0, u32::MAX, home_test)?,
        careof_test: some_packet(careof_test)?,
        number: number_named(named)?,
    })
}

#[tactic(auto, using(crate::proofs::BindLaws::plain_parts), unfolding(crate::specs::EventRows::plain_bind_row))]
fn plain_bind_row(
    alloc: Global,
    ds: &FewDeclarations<'_>,
    fields: &[&[u8]],
) -> Result<Event, LineFault>
    ensures { GivesLine (λ e. e) result (rows.plain_bind_row ds.now (texts fields.now)) }
{
    let [
        by,
        on,
        source,
        peer,
        home,
        away,
        sequence,
        lifetime,
        home_test,
        careof_test,
    ] = fields
    else {
        return Err(LineFault::Bad(Reason::Form));
    };
    let outsider = outsider(ds, by)?;
    let link = link(ds, on)?;
    let ends = KeptEnds::new(alloc, bind_ends(source, peer, home, away)?)?;
    let event = bind_numbers(
        outsider,
        link,
        ends,
        sequence,
        lifetime,
        home_test,
        careof_test,
        None,
    )?;
    Ok(event)
}

#[tactic(auto, using(crate::proofs::BindLaws::numbered_parts), unfolding(crate::specs::EventRows::numbered_bind_row))]
fn numbered_bind_row(
    alloc: Global,
    ds: &FewDeclarations<'_>,
    fields: &[&[u8]],
) -> Result<Event, LineFault>
    ensures { GivesLine (λ e. e) result (rows.numbered_bind_row ds.now (texts fields.now)) }
{
    let [
        by,
        on,
        source,
        peer,
        home,
        away,
        sequence,
        lifetime,
        home_test,
        careof_test,
        number,
    ] = fields
    else {
        return Err(LineFault::Bad(Reason::Form));
    };
    let outsider = outsider(ds, by)?;
    let link = link(ds, on)?;
    let ends = KeptEnds::new(alloc, bind_ends(source, peer, home, away)?)?;
    let event = bind_numbers(
        outsider,
        link,
        ends,
        sequence,
        lifetime,
        home_test,
        careof_test,
        Some(number),
    )?;
    Ok(event)
}

/// An update, which names its binding number or does not.
pub fn bind_row(
    alloc: Global,
    numbered: bool,
    ds: &FewDeclarations<'_>,
    fields: &[&[u8]],
) -> Result<Event, LineFault>
    ensures { GivesLine (λ e. e) result (rows.bind_row numbered ds.now (texts fields.now)) }
{
    if numbered {
        numbered_bind_row(alloc, ds, fields)
    } else {
        plain_bind_row(alloc, ds, fields)
    }
}

#[tactic(auto, unfolding(crate::specs::EventRows::tell_row))]
pub fn tell_row(ds: &FewDeclarations<'_>, fields: &[&[u8]]) -> Result<Event, Reason>
    ensures { result ≡ rows.tell_row ds.now (texts fields.now) }
{
    let [by, on, test, probe] = fields else {
        return Err(Reason::Form);
    };
    Ok(Event::Tell {
        outsider: outsider(ds, by)?,
        link: link(ds, on)?,
        test: u32_in(0, u32::MAX, test)?,
        probe: u32_in(0, u32::MAX, probe)?,
    })
}

#[tactic(auto, unfolding(crate::specs::EventRows::listen_row))]
pub fn listen_row(ds: &FewDeclarations<'_>, fields: &[&[u8]]) -> Result<Event, Reason>
    ensures { result ≡ rows.listen_row ds.now (texts fields.now) }
{
    let [by, on] = fields else {
        return Err(Reason::Form);
    };
    Ok(Event::Listen {
        outsider: outsider(ds, by)?,
        link: link(ds, on)?,
    })
}

#[tactic(auto, unfolding(crate::specs::EventRows::deaf_row))]
pub fn deaf_row(ds: &FewDeclarations<'_>, fields: &[&[u8]]) -> Result<Event, Reason>
    ensures { result ≡ rows.deaf_row ds.now (texts fields.now) }
{
    let [by, on] = fields else {
        return Err(Reason::Form);
    };
    Ok(Event::Deaf {
        outsider: outsider(ds, by)?,
        link: link(ds, on)?,
    })
}

#[tactic(auto, unfolding(crate::specs::EventRows::squat_row))]
pub fn squat_row(ds: &FewDeclarations<'_>, fields: &[&[u8]]) -> Result<Event, Reason>
    ensures { result ≡ rows.squat_row ds.now (texts fields.now) }
{
    let [by, claimed] = fields else {
        return Err(Reason::Form);
    };
    Ok(Event::Squat {
        outsider: outsider(ds, by)?,
        address: KeptAddress::new(address(claimed)?),
    })
}

#[tactic(auto, unfolding(crate::specs::EventRows::yield_row))]
pub fn yield_row(ds: &FewDeclarations<'_>, fields: &[&[u8]]) -> Result<Event, Reason>
    ensures { result ≡ rows.yield_row ds.now (texts fields.now) }
{
    let [by, claimed] = fields else {
        return Err(Reason::Form);
    };
    Ok(Event::Yield {
        outsider: outsider(ds, by)?,
        address: KeptAddress::new(address(claimed)?),
    })
}
