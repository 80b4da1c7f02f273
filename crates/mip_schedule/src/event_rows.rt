//! The lines of events: what each reads.

ghost use Rattle.std.specs.Prelude.{◌≡◌};
ghost use Rattle.mip_lines.specs.Cutting.{texts};
ghost use Rattle.mip_schedule.specs.EventRows as rows;
ghost use Rattle.mip_symbols.specs.Faults.{GivesLine};
ghost use Rattle.mip_symbols.specs.Kinds as kinds;

use crate::event::Event;
use crate::kept_address::KeptAddress;
use crate::kept_bytes::KeptBytes;
use crate::outsider_rows::{
    bind_row, deaf_row, inject_row, listen_row, probe_row, squat_row, tell_row, yield_row,
};
use mip_symbols::kinds::{address, bytes, link, node, some_link, u8_in, u32_in};
use mip_symbols::{FewDeclarations, LineFault, Reason, Sort};
use std::alloc::Global;

#[tactic(auto, unfolding(crate::specs::EventRows::wait_row))]
fn wait_row(ds: &FewDeclarations<'_>, fields: &[&[u8]]) -> Result<Event, Reason>
    ensures { result ≡ rows.wait_row ds.now (texts fields.now) }
{
    let [time] = fields else {
        return Err(Reason::Form);
    };
    Ok(Event::Wait {
        ms: u32_in(1, 600_000, time)?,
    })
}

#[tactic(auto, unfolding(crate::specs::EventRows::move_row))]
fn move_row(ds: &FewDeclarations<'_>, fields: &[&[u8]]) -> Result<Event, Reason>
    ensures { result ≡ rows.move_row ds.now (texts fields.now) }
{
    let [who, on] = fields else {
        return Err(Reason::Form);
    };
    Ok(Event::Move {
        node: node(Sort::Mobile, ds, who)?,
        link: some_link(ds, on)?,
    })
}

#[tactic(auto, unfolding(crate::specs::EventRows::advertise_row))]
fn advertise_row(ds: &FewDeclarations<'_>, fields: &[&[u8]]) -> Result<Event, Reason>
    ensures { result ≡ rows.advertise_row ds.now (texts fields.now) }
{
    let [on] = fields else {
        return Err(Reason::Form);
    };
    Ok(Event::Advertise {
        link: link(ds, on)?,
    })
}

#[tactic(auto, unfolding(mip_symbols::specs::Kinds::bytes))]
fn payload_in(alloc: Global, field: &[u8]) -> Result<KeptBytes, LineFault>
    ensures { GivesLine (λ b. b) result (kinds.bytes 512 field.now) }
{
    if let Some(few) = KeptBytes::of_few_digits(field) {
        return Ok(few);
    }
    let payload = bytes(alloc, 512, field)?;
    Ok(KeptBytes::copy(alloc, payload.as_slice())?)
}

#[tactic(auto, unfolding(crate::specs::EventRows::data_row))]
fn data_row(alloc: Global, ds: &FewDeclarations<'_>, fields: &[&[u8]]) -> Result<Event, LineFault>
    ensures { GivesLine (λ e. e) result (rows.data_row ds.now (texts fields.now)) }
{
    let [who, to, proto, payload] = fields else {
        return Err(LineFault::Bad(Reason::Form));
    };
    Ok(Event::Payload {
        node: node(Sort::Host, ds, who)?,
        to: KeptAddress::new(address(to)?),
        proto: u8_in(0, u8::MAX, proto)?,
        payload: payload_in(alloc, payload)?,
    })
}

#[tactic(auto, unfolding(crate::specs::EventRows::deliver_row))]
fn deliver_row(_ds: &FewDeclarations<'_>, fields: &[&[u8]]) -> Result<Event, Reason>
    ensures { result ≡ rows.deliver_row _ds.now (texts fields.now) }
{
    let [packet] = fields else {
        return Err(Reason::Form);
    };
    Ok(Event::Deliver {
        number: u32_in(0, u32::MAX, packet)?,
    })
}

#[tactic(auto, unfolding(crate::specs::EventRows::repeat_row))]
fn repeat_row(_ds: &FewDeclarations<'_>, fields: &[&[u8]]) -> Result<Event, Reason>
    ensures { result ≡ rows.repeat_row _ds.now (texts fields.now) }
{
    let [packet] = fields else {
        return Err(Reason::Form);
    };
    Ok(Event::Repeat {
        number: u32_in(0, u32::MAX, packet)?,
    })
}

#[tactic(auto, unfolding(crate::specs::EventRows::lose_row))]
fn lose_row(_ds: &FewDeclarations<'_>, fields: &[&[u8]]) -> Result<Event, Reason>
    ensures { result ≡ rows.lose_row _ds.now (texts fields.now) }
{
    let [packet] = fields else {
        return Err(Reason::Form);
    };
    Ok(Event::Lose {
        number: u32_in(0, u32::MAX, packet)?,
    })
}

#[tactic(auto, unfolding(crate::specs::EventRows::carry_row))]
fn carry_row(ds: &FewDeclarations<'_>, fields: &[&[u8]]) -> Result<Event, Reason>
    ensures { result ≡ rows.carry_row ds.now (texts fields.now) }
{
    let [packets] = fields else {
        return Err(Reason::Form);
    };
    Ok(Event::Carry {
        count: u32_in(1, 1000, packets)?,
    })
}

#[tactic(auto, unfolding(crate::specs::EventRows::restart_row))]
fn restart_row(ds: &FewDeclarations<'_>, fields: &[&[u8]]) -> Result<Event, Reason>
    ensures { result ≡ rows.restart_row ds.now (texts fields.now) }
{
    let [who] = fields else {
        return Err(Reason::Form);
    };
    Ok(Event::Restart {
        node: node(Sort::Node, ds, who)?,
    })
}

#[tactic(auto, unfolding(crate::specs::EventRows::refresh_row))]
fn refresh_row(ds: &FewDeclarations<'_>, fields: &[&[u8]]) -> Result<Event, Reason>
    ensures { result ≡ rows.refresh_row ds.now (texts fields.now) }
{
    let [who, home] = fields else {
        return Err(Reason::Form);
    };
    Ok(Event::Refresh {
        node: node(Sort::Host, ds, who)?,
        home: KeptAddress::new(address(home)?),
    })
}

#[tactic(auto, unfolding(crate::specs::EventRows::plan_row))]
fn plan_row(ds: &FewDeclarations<'_>, fields: &[&[u8]]) -> Result<Event, Reason>
    ensures { result ≡ rows.plan_row ds.now (texts fields.now) }
{
    let [who, valid, preferred] = fields else {
        return Err(Reason::Form);
    };
    Ok(Event::Plan {
        node: node(Sort::Agent, ds, who)?,
        valid: u32_in(0, u32::MAX, valid)?,
        preferred: u32_in(0, u32::MAX, preferred)?,
    })
}

#[tactic(auto, unfolding(crate::specs::EventRows::ask_row))]
fn ask_row(ds: &FewDeclarations<'_>, fields: &[&[u8]]) -> Result<Event, Reason>
    ensures { result ≡ rows.ask_row ds.now (texts fields.now) }
{
    let [who] = fields else {
        return Err(Reason::Form);
    };
    Ok(Event::Ask {
        node: node(Sort::Mobile, ds, who)?,
    })
}

#[tactic(auto, unfolding(crate::specs::EventRows::show_row))]
fn show_row(ds: &FewDeclarations<'_>, fields: &[&[u8]]) -> Result<Event, Reason>
    ensures { result ≡ rows.show_row ds.now (texts fields.now) }
{
    let [who] = fields else {
        return Err(Reason::Form);
    };
    Ok(Event::Show {
        node: node(Sort::Node, ds, who)?,
    })
}

#[tactic(auto, unfolding(crate::specs::EventRows::settle_row))]
fn settle_row(ds: &FewDeclarations<'_>, fields: &[&[u8]]) -> Result<Event, Reason>
    ensures { result ≡ rows.settle_row ds.now (texts fields.now) }
{
    let [a, b] = fields else {
        return Err(Reason::Form);
    };
    Ok(Event::Settle {
        a: node(Sort::Host, ds, a)?,
        b: node(Sort::Host, ds, b)?,
    })
}

/// A line of what nodes do.
#[tactic(auto, unfolding(crate::specs::EventRows::node_fields))]
fn node_fields(
    alloc: Global,
    ds: &FewDeclarations<'_>,
    word: &[u8],
    fields: &[&[u8]],
) -> Result<Event, LineFault>
    ensures { GivesLine (λ e. e) result (rows.node_fields ds.now word.now (texts fields.now)) }
{
    if word == b"move".as_slice() {
        Ok(move_row(ds, fields)?)
    } else if word == b"data".as_slice() {
        data_row(alloc, ds, fields)
    } else if word == b"restart".as_slice() {
        Ok(restart_row(ds, fields)?)
    } else if word == b"refresh".as_slice() {
        Ok(refresh_row(ds, fields)?)
    } else if word == b"plan".as_slice() {
        Ok(plan_row(ds, fields)?)
    } else if word == b"ask".as_slice() {
        Ok(ask_row(ds, fields)?)
    } else if word == b"show".as_slice() {
        Ok(show_row(ds, fields)?)
    } else if word == b"settle".as_slice() {
        Ok(settle_row(ds, fields)?)
    } else {
        Err(LineFault::Bad(Reason::Form))
    }
}

/// A line of what becomes of packets.
#[tactic(auto, unfolding(crate::specs::EventRows::packet_fields))]
fn packet_fields(
    alloc: Global,
    ds: &FewDeclarations<'_>,
    word: &[u8],
    fields: &[&[u8]],
) -> Result<Event, LineFault>
    ensures { GivesLine (λ e. e) result (rows.packet_fields ds.now word.now (texts fields.now)) }
{
    if word == b"deliver".as_slice() {
        Ok(deliver_row(ds, fields)?)
    } else if word == b"repeat".as_slice() {
        Ok(repeat_row(ds, fields)?)
    } else if word == b"lose".as_slice() {
        Ok(lose_row(ds, fields)?)
    } else if word == b"carry".as_slice() {
        Ok(carry_row(ds, fields)?)
    } else {
        node_fields(alloc, ds, word, fields)
    }
}

/// A line of what outsiders do. Updates name their binding numbers, or do not.
#[tactic(auto, unfolding(crate::specs::EventRows::outsider_fields))]
fn outsider_fields(
    alloc: Global,
    numbered: bool,
    ds: &FewDeclarations<'_>,
    word: &[u8],
    fields: &[&[u8]],
) -> Result<Event, LineFault>
    ensures { GivesLine (λ e. e) result (rows.outsider_fields numbered ds.now word.now (texts fields.now)) }
{
    if word == b"inject".as_slice() {
        inject_row(alloc, ds, fields)
    } else if word == b"probe".as_slice() {
        Ok(probe_row(ds, fields)?)
    } else if word == b"bind".as_slice() {
        bind_row(alloc, numbered, ds, fields)
    } else if word == b"tell".as_slice() {
        Ok(tell_row(ds, fields)?)
    } else if word == b"listen".as_slice() {
        Ok(listen_row(ds, fields)?)
    } else if word == b"deaf".as_slice() {
        Ok(deaf_row(ds, fields)?)
    } else if word == b"squat".as_slice() {
        Ok(squat_row(ds, fields)?)
    } else if word == b"yield".as_slice() {
        Ok(yield_row(ds, fields)?)
    } else {
        packet_fields(alloc, ds, word, fields)
    }
}

/// A line of events by its first field. Updates name their binding numbers, or do not.
#[tactic(auto, unfolding(crate::specs::EventRows::event_fields))]
pub fn event_fields(
    alloc: Global,
    numbered: bool,
    ds: &FewDeclarations<'_>,
    row: &[&[u8]],
) -> Result<Event, LineFault>
    ensures { GivesLine (λ e. e) result (rows.event_fields numbered ds.now (texts row.now)) }
{
    let [first, fields @ ..] = row else {
        return Err(LineFault::Bad(Reason::Form));
    };
    let word = *first;
    if word == b"wait".as_slice() {
        Ok(wait_row(ds, fields)?)
    } else if word == b"advertise".as_slice() {
        Ok(advertise_row(ds, fields)?)
    } else {
        outsider_fields(alloc, numbered, ds, word, fields)
    }
}
