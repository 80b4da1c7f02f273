//! The lines of what outsiders do, as they are written.

ghost use Rattle.std.specs.Prelude.{◌≡◌, ◌++◌, false, true, OnOk};
ghost use Rattle.mip_lines.specs.Lines.{line_text};
ghost use Rattle.mip_schedule.specs.Groups.{is_bind, is_outside, is_posted};
ghost use Rattle.mip_schedule.specs.Spelling.{event_text, probe_text};
ghost use Rattle.mip_schedule.specs.declared.event.Event.TheVariants as events;

use crate::event::Event;
use crate::field_writing::{careof_word, digits_16, some_digits};
use itoa::Buffer;
use mip_lines::{put_line, put_line_hex};
use mip_symbols::{Declaration, link_name, outsider_name};
use mip_words::{Address, Bytes, Cookie, LinkId, Memory};

fn put_probe(
    out: &mut Bytes,
    ds: &[Declaration],
    outsider: u8,
    link: LinkId,
    which: &[u8],
    source: Address,
    peer: Address,
    cookie: Cookie,
) -> Result<(), Memory>
    ensures { OnOk result (out.new ≡ out.old ++ line_text (probe_text ds.now outsider link which.now source peer cookie)) }
{
    put_line(
        out,
        &[
            b"probe",
            outsider_name(ds, outsider),
            link_name(ds, link),
            which,
            &source.digits(),
            &peer.digits(),
            &digits_16(cookie.0),
        ],
    )
}

fn put_bind(out: &mut Bytes, numbered: bool, ds: &[Declaration], e: &Event) -> Result<(), Memory>
    requires { is_bind e.now ≡ true }
    ensures { OnOk result (out.new ≡ out.old ++ line_text (event_text numbered ds.now e.now)) }
{
    let Event::Bind {
        outsider,
        link,
        ends,
        sequence,
        lifetime,
        home_test,
        careof_test,
        number,
    } = e
    else {
        return Ok(());
    };
    let ends = ends.get();
    let mut first = Buffer::new();
    let mut second = Buffer::new();
    let mut third = Buffer::new();
    let mut last = Buffer::new();
    let mut digits = Buffer::new();
    let fields = [
        b"bind",
        outsider_name(ds, *outsider),
        link_name(ds, *link),
        &ends.source.digits(),
        &ends.peer.digits(),
        &ends.home.digits(),
        &ends.careof.digits(),
        first.format(*sequence).as_bytes(),
        second.format(*lifetime).as_bytes(),
        third.format(*home_test).as_bytes(),
        some_digits(&mut last, *careof_test),
        digits.format(*number).as_bytes(),
    ];
    if numbered {
        put_line(out, &fields)
    } else {
        put_line(out, &fields[..11])
    }
}

fn put_tell(
    out: &mut Bytes,
    ds: &[Declaration],
    outsider: u8,
    link: LinkId,
    test: u32,
    probe: u32,
) -> Result<(), Memory>
    ensures { OnOk result (out.new ≡ out.old ++ line_text (event_text false ds.now (events.Tell outsider link test probe))) }
{
    let mut first = Buffer::new();
    let mut second = Buffer::new();
    put_line(
        out,
        &[
            b"tell",
            outsider_name(ds, outsider),
            link_name(ds, link),
            first.format(test).as_bytes(),
            second.format(probe).as_bytes(),
        ],
    )
}

/// Appends the line of what an outsider posts. Updates name their binding numbers, or do not.
pub fn put_posted(
    out: &mut Bytes,
    numbered: bool,
    ds: &[Declaration],
    e: &Event,
) -> Result<(), Memory>
    requires { is_posted e.now ≡ true }
    ensures { OnOk result (out.new ≡ out.old ++ line_text (event_text numbered ds.now e.now)) }
{
    match e {
        Event::Inject {
            outsider,
            link,
            packet,
        } => put_line_hex(
            out,
            b"inject",
            &[outsider_name(ds, *outsider), link_name(ds, *link)],
            packet.as_slice(),
        ),
        Event::Probe {
            outsider,
            link,
            careof,
            source,
            peer,
            cookie,
        } => put_probe(
            out,
            ds,
            *outsider,
            *link,
            careof_word(*careof),
            source.get(),
            peer.get(),
            *cookie,
        ),
        Event::Bind { .. } => put_bind(out, numbered, ds, e),
        Event::Tell {
            outsider,
            link,
            test,
            probe,
        } => put_tell(out, ds, *outsider, *link, *test, *probe),
        _ => Ok(()),
    }
}

/// Appends the line of what else an outsider does.
pub fn put_outside(
    out: &mut Bytes,
    _numbered: bool,
    ds: &[Declaration],
    e: &Event,
) -> Result<(), Memory>
    requires { is_outside e.now ≡ true }
    ensures { OnOk result (out.new ≡ out.old ++ line_text (event_text _numbered ds.now e.now)) }
{
    match e {
        Event::Listen { outsider, link } => put_line(
            out,
            &[
                b"listen",
                outsider_name(ds, *outsider),
                link_name(ds, *link),
            ],
        ),
        Event::Deaf { outsider, link } => put_line(
            out,
            &[b"deaf", outsider_name(ds, *outsider), link_name(ds, *link)],
        ),
        Event::Squat { outsider, address } => put_line(
            out,
            &[
                b"squat",
                outsider_name(ds, *outsider),
                &address.get().digits(),
            ],
        ),
        Event::Yield { outsider, address } => put_line(
            out,
            &[
                b"yield",
                outsider_name(ds, *outsider),
                &address.get().digits(),
            ],
        ),
        _ => Ok(()),
    }
}
