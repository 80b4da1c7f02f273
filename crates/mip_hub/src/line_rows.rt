//! The lines of a hub: what the fields behind the word of each are read as.

ghost use Rattle.std.specs.Prelude.{◌≡◌, ◌∷◌, []};
ghost use Rattle.mip_lines.specs.Cutting.{texts};
ghost use Rattle.mip_hub.specs.Rows as rows;

use crate::hub_line::HubLine;
use mip_config::port;
use mip_symbols::Reason;
use mip_symbols::kinds::{address, prefix, u8_in, u32_in};

fn turn(field: &[u8]) -> Result<u32, Reason>
    ensures { result ≡ rows.turn field.now }
{
    u32_in(1, 1_000_000, field)
}

fn yes_or_no(field: &[u8]) -> Result<bool, Reason>
    ensures { result ≡ rows.yes_or_no field.now }
{
    if field == b"yes".as_slice() {
        Ok(true)
    } else if field == b"no".as_slice() {
        Ok(false)
    } else {
        Err(Reason::Name)
    }
}

#[tactic(auto, unfolding(crate::specs::Rows::claim_row))]
fn claim(when: &[u8], digits: &[u8], number: &[u8]) -> Result<HubLine, Reason>
    ensures { result ≡ rows.claim_row (when.now ∷ digits.now ∷ number.now ∷ []) }
{
    Ok(HubLine::Claim {
        turn: turn(when)?,
        address: address(digits)?,
        port: port(number)?,
    })
}

#[tactic(auto, unfolding(crate::specs::Rows::claim_row))]
fn claim_row(fields: &[&[u8]]) -> Result<HubLine, Reason>
    ensures { result ≡ rows.claim_row (texts fields.now) }
{
    match fields {
        [when, digits, number] => claim(when, digits, number),
        _ => Err(Reason::Form),
    }
}

#[tactic(auto, unfolding(crate::specs::Rows::release_row))]
fn release_row(fields: &[&[u8]]) -> Result<HubLine, Reason>
    ensures { result ≡ rows.release_row (texts fields.now) }
{
    let [when, digits] = fields else {
        return Err(Reason::Form);
    };
    Ok(HubLine::Release {
        turn: turn(when)?,
        address: address(digits)?,
    })
}

#[tactic(auto, unfolding(crate::specs::Rows::advertise_row))]
fn advertise(when: &[u8], digits: &[u8], agent: &[u8], number: &[u8]) -> Result<HubLine, Reason>
    ensures { result ≡ rows.advertise_row (when.now ∷ digits.now ∷ agent.now ∷ number.now ∷ []) }
{
    Ok(HubLine::Advertise {
        turn: turn(when)?,
        prefix: prefix(digits)?,
        agent: yes_or_no(agent)?,
        port: port(number)?,
    })
}

#[tactic(auto, unfolding(crate::specs::Rows::advertise_row))]
fn advertise_row(fields: &[&[u8]]) -> Result<HubLine, Reason>
    ensures { result ≡ rows.advertise_row (texts fields.now) }
{
    match fields {
        [when, digits, agent, number] => advertise(when, digits, agent, number),
        _ => Err(Reason::Form),
    }
}

#[tactic(auto, unfolding(crate::specs::Rows::copies_row))]
fn copies_row(fields: &[&[u8]]) -> Result<HubLine, Reason>
    ensures { result ≡ rows.copies_row (texts fields.now) }
{
    let [when, count] = fields else {
        return Err(Reason::Form);
    };
    Ok(HubLine::Copies {
        turn: turn(when)?,
        count: u8_in(0, 4, count)?,
    })
}

/// A line of a hub by its first field.
#[tactic(auto, unfolding(crate::specs::Rows::line_fields))]
pub fn line_fields(row: &[&[u8]]) -> Result<HubLine, Reason>
    ensures { result ≡ rows.line_fields (texts row.now) }
{
    let [first, fields @ ..] = row else {
        return Err(Reason::Form);
    };
    let word = *first;
    if word == b"claim".as_slice() {
        claim_row(fields)
    } else if word == b"release".as_slice() {
        release_row(fields)
    } else if word == b"advertise".as_slice() {
        advertise_row(fields)
    } else if word == b"copies".as_slice() {
        copies_row(fields)
    } else {
        Err(Reason::Form)
    }
}
