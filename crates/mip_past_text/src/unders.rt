//! Under which numbers a home is held.

ghost use Rattle.std.specs.Prelude.{◌≡◌, ◌++◌, OnOk, option_map};
ghost use Rattle.mip_past_text.specs.Fronts.{front_of};
ghost use Rattle.mip_past_text.specs.Text.{numbers_named, under_line, under_lines, under_text};

use crate::inquiry::Inquiry;
use mip_lines::{put_line, put_number};
use mip_schedule::{is_numbered, numbers_of};
use mip_symbols::node_name;
use mip_words::{Address, Bytes, Memory};
use std::alloc::Global;

/// How many numbers there are, where updates name theirs.
fn numbers_named(version: u8) -> u8
    ensures { result ≡ numbers_named version }
{
    if is_numbered(version) {
        numbers_of(version)
    } else {
        0
    }
}

/// Appends `under NODE HOME NUMBER ADDRESS`, where there is an answer.
fn put_under(
    alloc: Global,
    out: &mut Bytes,
    node: &[u8],
    home: Address,
    number: u8,
    answer: Option<Address>,
) -> Result<(), Memory>
    ensures { OnOk result (out.new ≡ out.old ++ under_line node.now home number (option_map (λ a. a.0) answer)) }
{
    let Some(careof) = answer else {
        return Ok(());
    };
    let mut digits = Bytes::new(alloc);
    put_number(&mut digits, number as u64)?;
    put_line(
        out,
        &[
            b"under",
            node,
            &home.digits(),
            digits.as_slice(),
            &careof.digits(),
        ],
    )
}

/// Appends a line for each of the first so many numbers under which a home is held.
#[tactic(auto, unfolding(crate::specs::Text::under_lines))]
fn put_first_unders(
    alloc: Global,
    out: &mut Bytes,
    asked: Inquiry<'_>,
    home: Address,
    numbers: u8,
) -> Result<(), Memory>
    ensures { OnOk result (out.new ≡ out.old ++ under_lines asked.entry.scene.declarations.now (front_of asked.entry.scene) asked.entry.node home numbers) }
{
    let name = node_name(asked.scene.declarations, asked.node);
    for number in 0..numbers {
        let held = asked.scene.past.held_under(asked.node, home, number);
        put_under(alloc, out, name, home, number, held)?;
    }
    Ok(())
}

/// Appends a line for each number under which a home is held, where updates name theirs.
pub fn put_unders(
    alloc: Global,
    out: &mut Bytes,
    asked: Inquiry<'_>,
    home: Address,
) -> Result<(), Memory>
    ensures { OnOk result (out.new ≡ out.old ++ under_text asked.entry.scene.declarations.now (front_of asked.entry.scene) asked.entry.node home) }
{
    put_first_unders(alloc, out, asked, home, numbers_named(asked.scene.version))
}
