//! The lines of a configuration as they are written.

ghost use Rattle.std.specs.Prelude.{◌≡◌, [], ◌∷◌, ◌++◌, decimal, map, OnOk};
ghost use Rattle.mip_lines.specs.Lines.{line_text, lines_text};
ghost use Rattle.mip_config_writing.specs.Spelling.{default_rows, head_rows, payload_text, role_text, route_text, serve_text};

use itoa::Buffer;
use mip_config::{Payload, Role};
use mip_frames::{Route, Routes};
use mip_lines::{put_line, put_line_hex};
use mip_words::{Address, Bytes, Memory, NodeId, hex_into, u64_bytes};

/// Appends a line of a word and a number.
fn put_number_line(out: &mut Bytes, word: &[u8], number: u16) -> Result<(), Memory>
    ensures { OnOk result (out.new ≡ out.old ++ line_text (word.now ∷ decimal number ∷ [])) }
{
    let mut digits = Buffer::new();
    put_line(out, &[word, digits.format(number).as_bytes()])
}

/// Appends the first four lines.
pub fn put_head(out: &mut Bytes, seed: &[u8; 32], node: NodeId, port: u16) -> Result<(), Memory>
    ensures { OnOk result (out.new ≡ out.old ++ lines_text (head_rows seed.now node port)) }
{
    let mut digits = [0; 64];
    hex_into(seed, &mut digits);
    put_line(out, &[b"mip", b"1"])?;
    put_line(out, &[b"seed", &digits])?;
    put_number_line(out, b"self", node.0 as u16)?;
    put_number_line(out, b"port", port)
}

fn put_route(out: &mut Bytes, route: &Route) -> Result<(), Memory>
    ensures { OnOk result (out.new ≡ out.old ++ line_text (route_text route.now)) }
{
    let mut prefix = [0; 16];
    hex_into(&u64_bytes(route.prefix.0), &mut prefix);
    let mut port = Buffer::new();
    put_line(
        out,
        &[b"route", &prefix, port.format(route.port).as_bytes()],
    )
}

pub fn put_routes(out: &mut Bytes, routes: &Routes) -> Result<(), Memory>
    ensures { OnOk result (out.new ≡ out.old ++ lines_text (map route_text routes.now)) }
{
    for place in 0..routes.len() {
        if let Some(route) = routes.at(place) {
            put_route(out, route)?;
        }
    }
    Ok(())
}

pub fn put_default(out: &mut Bytes, fallback: Option<u16>) -> Result<(), Memory>
    ensures { OnOk result (out.new ≡ out.old ++ lines_text (default_rows fallback)) }
{
    match fallback {
        Some(port) => put_number_line(out, b"default", port),
        None => Ok(()),
    }
}

fn put_agent(
    out: &mut Bytes,
    address: Address,
    preference: u16,
    life: u16,
    room: u32,
) -> Result<(), Memory>
    ensures { OnOk result (out.new ≡ out.old ++ line_text (role_text (Role.Agent address preference life room))) }
{
    let mut first = Buffer::new();
    let mut second = Buffer::new();
    let mut third = Buffer::new();
    put_line(
        out,
        &[
            b"agent",
            &address.digits(),
            first.format(preference).as_bytes(),
            second.format(life).as_bytes(),
            third.format(room).as_bytes(),
        ],
    )
}

fn put_correspondent(out: &mut Bytes, address: Address, room: u32) -> Result<(), Memory>
    ensures { OnOk result (out.new ≡ out.old ++ line_text (role_text (Role.Correspondent address room))) }
{
    let mut digits = Buffer::new();
    put_line(
        out,
        &[
            b"correspondent",
            &address.digits(),
            digits.format(room).as_bytes(),
        ],
    )
}

fn put_mobile(out: &mut Bytes, address: Address, agent: Option<Address>) -> Result<(), Memory>
    ensures { OnOk result (out.new ≡ out.old ++ line_text (role_text (Role.Mobile address agent))) }
{
    match agent {
        Some(agent) => put_line(out, &[b"mobile", &address.digits(), &agent.digits()]),
        None => put_line(out, &[b"mobile", &address.digits(), b"find"]),
    }
}

/// Appends the line of the role.
pub fn put_role(out: &mut Bytes, role: Role) -> Result<(), Memory>
    ensures { OnOk result (out.new ≡ out.old ++ line_text (role_text role)) }
{
    match role {
        Role::Agent {
            address,
            preference,
            life,
            room,
        } => put_agent(out, address, preference, life, room),
        Role::Correspondent { address, room } => put_correspondent(out, address, room),
        Role::Mobile { address, agent } => put_mobile(out, address, agent),
    }
}

pub fn put_homes(out: &mut Bytes, homes: &[Address]) -> Result<(), Memory>
    ensures { OnOk result (out.new ≡ out.old ++ lines_text (map serve_text homes.now)) }
{
    for home in homes {
        put_line(out, &[b"serve", &home.digits()])?;
    }
    Ok(())
}

fn put_payload(out: &mut Bytes, payload: &Payload) -> Result<(), Memory>
    ensures { OnOk result (out.new ≡ out.old ++ line_text (payload_text payload.now)) }
{
    let mut turn = Buffer::new();
    let mut proto = Buffer::new();
    put_line_hex(
        out,
        b"payload",
        &[
            turn.format(payload.turn).as_bytes(),
            &payload.to.digits(),
            proto.format(payload.proto).as_bytes(),
        ],
        payload.payload.as_slice(),
    )
}

pub fn put_payloads(out: &mut Bytes, payloads: &[Payload]) -> Result<(), Memory>
    ensures { OnOk result (out.new ≡ out.old ++ lines_text (map payload_text payloads.now)) }
{
    for payload in payloads {
        put_payload(out, payload)?;
    }
    Ok(())
}
