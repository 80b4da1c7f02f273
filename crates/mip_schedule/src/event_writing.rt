//! The lines of events as they are written.

ghost use Rattle.std.specs.Prelude.{◌≡◌, ◌++◌, false, true, OnOk};
ghost use Rattle.mip_lines.specs.Lines.{line_text};
ghost use Rattle.mip_schedule.specs.Groups.{is_delivery, is_of_node};
ghost use Rattle.mip_schedule.specs.Spelling.{event_text};
ghost use Rattle.mip_schedule.specs.declared.event.Event.TheVariants as events;

use crate::event::Event;
use crate::field_writing::{put_number_line, some_link_name};
use crate::outsider_writing::{put_outside, put_posted};
use itoa::Buffer;
use mip_lines::{put_line, put_line_hex};
use mip_symbols::{Declaration, link_name, node_name};
use mip_words::{Address, Bytes, Memory, NodeId};

fn put_delivery(
    out: &mut Bytes,
    _numbered: bool,
    _ds: &[Declaration],
    e: &Event,
) -> Result<(), Memory>
    requires { is_delivery e.now ≡ true }
    ensures { OnOk result (out.new ≡ out.old ++ line_text (event_text _numbered _ds.now e.now)) }
{
    match e {
        Event::Deliver { number } => put_number_line(out, b"deliver", *number),
        Event::Repeat { number } => put_number_line(out, b"repeat", *number),
        Event::Lose { number } => put_number_line(out, b"lose", *number),
        Event::Carry { count } => put_number_line(out, b"carry", *count),
        _ => Ok(()),
    }
}

fn put_payload(
    out: &mut Bytes,
    ds: &[Declaration],
    node: NodeId,
    to: Address,
    proto: u8,
    payload: &[u8],
) -> Result<(), Memory>
    ensures { OnOk result (out.new ≡ out.old ++ line_text (event_text false ds.now (events.Payload node to proto payload.now))) }
{
    let mut digits = Buffer::new();
    put_line_hex(
        out,
        b"data",
        &[
            node_name(ds, node),
            &to.digits(),
            digits.format(proto).as_bytes(),
        ],
        payload,
    )
}

fn put_plan(
    out: &mut Bytes,
    ds: &[Declaration],
    node: NodeId,
    valid: u32,
    preferred: u32,
) -> Result<(), Memory>
    ensures { OnOk result (out.new ≡ out.old ++ line_text (event_text false ds.now (events.Plan node valid preferred))) }
{
    let mut first = Buffer::new();
    let mut second = Buffer::new();
    put_line(
        out,
        &[
            b"plan",
            node_name(ds, node),
            first.format(valid).as_bytes(),
            second.format(preferred).as_bytes(),
        ],
    )
}

fn put_of_node(
    out: &mut Bytes,
    _numbered: bool,
    ds: &[Declaration],
    e: &Event,
) -> Result<(), Memory>
    requires { is_of_node e.now ≡ true }
    ensures { OnOk result (out.new ≡ out.old ++ line_text (event_text _numbered ds.now e.now)) }
{
    match e {
        Event::Move { node, link } => put_line(
            out,
            &[b"move", node_name(ds, *node), some_link_name(ds, *link)],
        ),
        Event::Payload {
            node,
            to,
            proto,
            payload,
        } => put_payload(out, ds, *node, to.get(), *proto, payload.as_slice()),
        Event::Restart { node } => put_line(out, &[b"restart", node_name(ds, *node)]),
        Event::Refresh { node, home } => {
            put_line(
                out,
                &[b"refresh", node_name(ds, *node), &home.get().digits()],
            )
        }
        Event::Plan {
            node,
            valid,
            preferred,
        } => put_plan(out, ds, *node, *valid, *preferred),
        Event::Ask { node } => put_line(out, &[b"ask", node_name(ds, *node)]),
        Event::Show { node } => put_line(out, &[b"show", node_name(ds, *node)]),
        Event::Settle { a, b } => {
            put_line(out, &[b"settle", node_name(ds, *a), node_name(ds, *b)])
        }
        _ => Ok(()),
    }
}

/// Appends the line of an event. Updates name their binding numbers, or do not.
pub fn put_event(
    out: &mut Bytes,
    numbered: bool,
    ds: &[Declaration],
    e: &Event,
) -> Result<(), Memory>
    ensures { OnOk result (out.new ≡ out.old ++ line_text (event_text numbered ds.now e.now)) }
{
    match e {
        Event::Wait { ms } => put_number_line(out, b"wait", *ms),
        Event::Advertise { link } => put_line(out, &[b"advertise", link_name(ds, *link)]),
        Event::Inject { .. } | Event::Probe { .. } | Event::Bind { .. } | Event::Tell { .. } => {
            put_posted(out, numbered, ds, e)
        }
        Event::Listen { .. } | Event::Deaf { .. } | Event::Squat { .. } | Event::Yield { .. } => {
            put_outside(out, numbered, ds, e)
        }
        Event::Deliver { .. } | Event::Repeat { .. } | Event::Lose { .. } | Event::Carry { .. } =>
            put_delivery(out, numbered, ds, e),
        Event::Move { .. }
        | Event::Payload { .. }
        | Event::Restart { .. }
        | Event::Refresh { .. }
        | Event::Plan { .. }
        | Event::Ask { .. }
        | Event::Show { .. }
        | Event::Settle { .. } => put_of_node(out, numbered, ds, e),
    }
}
