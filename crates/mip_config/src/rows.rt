//! The lines of a configuration: what the fields behind the word of each are read as.

ghost use Rattle.std.specs.Prelude.{◌≡◌, ◌∷◌, []};
ghost use Rattle.mip_lines.specs.Cutting.{texts};
ghost use Rattle.mip_symbols.specs.Faults.{GivesLine};
ghost use Rattle.mip_config.specs.Rows as rows;

use crate::payload::Payload;
use crate::role::Role;
use mip_frames::Route;
use mip_symbols::kinds::{address, bytes, prefix, u8_in, u16_in, u32_in};
use mip_symbols::{LineFault, Reason};
use mip_words::Address;
use std::alloc::Global;

/// A port of this host, from 1.
pub fn port(field: &[u8]) -> Result<u16, Reason>
    ensures { result ≡ rows.port field.now }
{
    u16_in(1, u16::MAX, field)
}

/// An agent, or none for one to be found.
fn some_agent(field: &[u8]) -> Result<Option<Address>, Reason>
    ensures { result ≡ rows.some_agent field.now }
{
    if field == b"find".as_slice() {
        Ok(None)
    } else {
        Ok(Some(address(field)?))
    }
}

#[tactic(auto, unfolding(crate::specs::Rows::route_row))]
pub fn route_row(fields: &[&[u8]]) -> Result<Route, Reason>
    ensures { result ≡ rows.route_row (texts fields.now) }
{
    let [digits, number] = fields else {
        return Err(Reason::Form);
    };
    Ok(Route {
        prefix: prefix(digits)?,
        port: port(number)?,
    })
}

#[tactic(auto, unfolding(crate::specs::Rows::default_row))]
pub fn default_row(fields: &[&[u8]]) -> Result<u16, Reason>
    ensures { result ≡ rows.default_row (texts fields.now) }
{
    let [number] = fields else {
        return Err(Reason::Form);
    };
    port(number)
}

#[tactic(auto, unfolding(crate::specs::Rows::agent_row))]
fn agent(digits: &[u8], preference: &[u8], life: &[u8], room: &[u8]) -> Result<Role, Reason>
    ensures { result ≡ rows.agent_row (digits.now ∷ preference.now ∷ life.now ∷ room.now ∷ []) }
{
    Ok(Role::Agent {
        address: address(digits)?,
        preference: u16_in(0, u16::MAX, preference)?,
        life: u16_in(0, u16::MAX, life)?,
        room: u32_in(1, 64, room)?,
    })
}

#[tactic(auto, unfolding(crate::specs::Rows::agent_row))]
fn agent_row(fields: &[&[u8]]) -> Result<Role, Reason>
    ensures { result ≡ rows.agent_row (texts fields.now) }
{
    match fields {
        [digits, preference, life, room] => agent(digits, preference, life, room),
        _ => Err(Reason::Form),
    }
}

#[tactic(auto, unfolding(crate::specs::Rows::correspondent_row))]
fn correspondent_row(fields: &[&[u8]]) -> Result<Role, Reason>
    ensures { result ≡ rows.correspondent_row (texts fields.now) }
{
    let [digits, room] = fields else {
        return Err(Reason::Form);
    };
    Ok(Role::Correspondent {
        address: address(digits)?,
        room: u32_in(1, 64, room)?,
    })
}

#[tactic(auto, unfolding(crate::specs::Rows::mobile_row))]
fn mobile_row(fields: &[&[u8]]) -> Result<Role, Reason>
    ensures { result ≡ rows.mobile_row (texts fields.now) }
{
    let [digits, agent] = fields else {
        return Err(Reason::Form);
    };
    Ok(Role::Mobile {
        address: address(digits)?,
        agent: some_agent(agent)?,
    })
}

/// The line of the role, by its word.
#[tactic(auto, unfolding(crate::specs::Rows::role_row))]
pub fn role_row(word: &[u8], fields: &[&[u8]]) -> Result<Role, Reason>
    ensures { result ≡ rows.role_row word.now (texts fields.now) }
{
    if word == b"agent".as_slice() {
        agent_row(fields)
    } else if word == b"correspondent".as_slice() {
        correspondent_row(fields)
    } else if word == b"mobile".as_slice() {
        mobile_row(fields)
    } else {
        Err(Reason::Form)
    }
}

#[tactic(auto, unfolding(crate::specs::Rows::serve_row))]
pub fn serve_row(fields: &[&[u8]]) -> Result<Address, Reason>
    ensures { result ≡ rows.serve_row (texts fields.now) }
{
    let [home] = fields else {
        return Err(Reason::Form);
    };
    address(home)
}

#[tactic(auto, unfolding(crate::specs::Rows::payload_row))]
fn payload(
    alloc: Global,
    turn: &[u8],
    to: &[u8],
    proto: &[u8],
    payload: &[u8],
) -> Result<Payload, LineFault>
    ensures { GivesLine (λ p. p) result (rows.payload_row (turn.now ∷ to.now ∷ proto.now ∷ payload.now ∷ [])) }
{
    Ok(Payload {
        turn: u32_in(1, 1_000_000, turn)?,
        to: address(to)?,
        proto: u8_in(0, u8::MAX, proto)?,
        payload: bytes(alloc, 512, payload)?,
    })
}

#[tactic(auto, unfolding(crate::specs::Rows::payload_row))]
pub fn payload_row(alloc: Global, fields: &[&[u8]]) -> Result<Payload, LineFault>
    ensures { GivesLine (λ p. p) result (rows.payload_row (texts fields.now)) }
{
    match fields {
        [turn, to, proto, bytes] => payload(alloc, turn, to, proto, bytes),
        _ => Err(LineFault::Bad(Reason::Form)),
    }
}
