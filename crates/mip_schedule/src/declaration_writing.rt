//! The lines of declarations as they are written.

ghost use Rattle.std.specs.Prelude.{◌≡◌, [], ◌++◌, true, OnOk};
ghost use Rattle.mip_lines.specs.Lines.{line_text, lines_text};
ghost use Rattle.mip_symbols.specs.Places.{is_node};
ghost use Rattle.mip_schedule.specs.Spelling.{declaration_rows, declaration_text};
ghost use Rattle.mip_symbols.specs.declared.declaration.Declaration.TheVariants as declare;

use crate::field_writing::{digits_16, some_agent_name};
use itoa::Buffer;
use mip_lines::put_line;
use mip_symbols::{Declaration, Name, link_name, node_name};
use mip_words::{Address, Bytes, LinkId, Memory};

fn put_agent(
    out: &mut Bytes,
    ds: &[Declaration],
    name: &Name,
    link: LinkId,
    address: Address,
    preference: u16,
    life: u16,
    room: u32,
) -> Result<(), Memory>
    ensures { OnOk result (out.new ≡ out.old ++ line_text (declaration_text ds.now (declare.Agent name.now link address preference life room))) }
{
    let mut first = Buffer::new();
    let mut second = Buffer::new();
    let mut third = Buffer::new();
    put_line(
        out,
        &[
            b"agent",
            name.as_slice(),
            link_name(ds, link),
            &address.digits(),
            first.format(preference).as_bytes(),
            second.format(life).as_bytes(),
            third.format(room).as_bytes(),
        ],
    )
}

fn put_correspondent(
    out: &mut Bytes,
    ds: &[Declaration],
    name: &Name,
    link: LinkId,
    address: Address,
    room: u32,
) -> Result<(), Memory>
    ensures { OnOk result (out.new ≡ out.old ++ line_text (declaration_text ds.now (declare.Correspondent name.now link address room))) }
{
    let mut digits = Buffer::new();
    put_line(
        out,
        &[
            b"correspondent",
            name.as_slice(),
            link_name(ds, link),
            &address.digits(),
            digits.format(room).as_bytes(),
        ],
    )
}

fn put_node(out: &mut Bytes, ds: &[Declaration], d: &Declaration) -> Result<(), Memory>
    requires { is_node d.now ≡ true }
    ensures { OnOk result (out.new ≡ out.old ++ line_text (declaration_text ds.now d.now)) }
{
    match d {
        Declaration::Agent {
            name,
            link,
            address,
            preference,
            life,
            room,
        } => put_agent(out, ds, name, *link, *address, *preference, *life, *room),
        Declaration::Correspondent {
            name,
            link,
            address,
            room,
        } => put_correspondent(out, ds, name, *link, *address, *room),
        Declaration::Mobile {
            name,
            link,
            address,
            agent,
        } => put_line(
            out,
            &[
                b"mobile",
                name.as_slice(),
                link_name(ds, *link),
                &address.digits(),
                some_agent_name(ds, *agent),
            ],
        ),
        _ => Ok(()),
    }
}

/// Appends the line of a declaration that stands after these.
fn put_declaration(out: &mut Bytes, ds: &[Declaration], d: &Declaration) -> Result<(), Memory>
    ensures { OnOk result (out.new ≡ out.old ++ line_text (declaration_text ds.now d.now)) }
{
    match d {
        Declaration::Link { name, prefix } => put_line(
            out,
            &[b"link", name.as_slice(), &digits_16(prefix.0)],
        ),
        Declaration::Agent { .. }
        | Declaration::Correspondent { .. }
        | Declaration::Mobile { .. } => put_node(out, ds, d),
        Declaration::Serve { agent, mobile } => put_line(
            out,
            &[b"serve", node_name(ds, *agent), node_name(ds, *mobile)],
        ),
        Declaration::Outsider { name } => put_line(out, &[b"outsider", name.as_slice()]),
    }
}

/// Appends the lines of declarations.
pub fn put_declarations(out: &mut Bytes, ds: &[Declaration]) -> Result<(), Memory>
    ensures { OnOk result (out.new ≡ out.old ++ lines_text (declaration_rows [] ds.now)) }
{
    for i in 0..ds.len() {
        put_declaration(out, &ds[..i], &ds[i])?;
    }
    Ok(())
}
