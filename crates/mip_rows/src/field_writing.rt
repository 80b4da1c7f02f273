//! Fields of each kind, as they are written.

ghost use Rattle.std.specs.Prelude.{◌≡◌, ◌++◌, OnOk, codes, decimal};
ghost use Rattle.mip_lines.specs.HexFields.{address_hex};
ghost use Rattle.mip_rows.specs.Names.{link_name};
ghost use Rattle.mip_rows.specs.Texts.{or_dash, token_hex, shield_mark, yes_or_no, value_text};

use crate::name_table::NameTable;
use crate::value::Value;
use crate::why_words::why_word;
use itoa::Buffer;
use mip_words::{Address, Bytes, LinkId, Memory, Token, hex_into};

/// Appends a text. A byte or two, as most names have, take fewer steps than a copy.
#[inline(always)]
fn put_text(out: &mut Bytes, text: &[u8]) -> Result<(), Memory>
    ensures { OnOk result (out.new ≡ out.old ++ text.now) }
{
    match text {
        [one] => out.push(*one),
        [one, two] => {
            out.push(*one)?;
            out.push(*two)
        }
        _ => out.extend(text),
    }
}

/// Appends the digits of a number.
#[inline(always)]
fn put_number(out: &mut Bytes, number: u64) -> Result<(), Memory>
    ensures { OnOk result (out.new ≡ out.old ++ decimal number) }
{
    if number < 10 {
        out.push(b'0' + number as u8)
    } else {
        out.extend(Buffer::new().format(number).as_bytes())
    }
}

fn put_none(out: &mut Bytes) -> Result<(), Memory>
    ensures { OnOk result (out.new ≡ out.old ++ codes "-") }
{
    out.push(b'-')
}

fn put_some_number(out: &mut Bytes, number: Option<u64>) -> Result<(), Memory>
    ensures { OnOk result (out.new ≡ out.old ++ or_dash decimal number) }
{
    match number {
        Some(number) => put_number(out, number),
        None => put_none(out),
    }
}

fn put_some_index(out: &mut Bytes, index: Option<u16>) -> Result<(), Memory>
    ensures { OnOk result (out.new ≡ out.old ++ or_dash decimal index) }
{
    match index {
        Some(index) => put_number(out, index as u64),
        None => put_none(out),
    }
}

fn put_address(out: &mut Bytes, address: Address) -> Result<(), Memory>
    ensures { OnOk result (out.new ≡ out.old ++ address_hex address) }
{
    out.extend(&address.digits())
}

/// The 16 digits of a token.
fn put_token(out: &mut Bytes, token: Token) -> Result<(), Memory>
    ensures { OnOk result (out.new ≡ out.old ++ token_hex token) }
{
    let mut digits = [0; 16];
    hex_into(&token.0, &mut digits);
    out.extend(&digits)
}

fn put_some_token(out: &mut Bytes, token: Option<Token>) -> Result<(), Memory>
    ensures { OnOk result (out.new ≡ out.old ++ or_dash token_hex token) }
{
    match token {
        Some(token) => put_token(out, token),
        None => put_none(out),
    }
}

fn put_some_link(out: &mut Bytes, names: &NameTable<'_>, link: Option<LinkId>) -> Result<(), Memory>
    ensures { OnOk result (out.new ≡ out.old ++ or_dash (link_name names.now) link) }
{
    match link {
        Some(link) => put_text(out, names.link_name(link)),
        None => put_none(out),
    }
}

fn put_shield(out: &mut Bytes, shielded: bool) -> Result<(), Memory>
    ensures { OnOk result (out.new ≡ out.old ++ shield_mark shielded) }
{
    if shielded {
        out.push(b'+')
    } else {
        out.push(b'-')
    }
}

fn put_answer(out: &mut Bytes, yes: bool) -> Result<(), Memory>
    ensures { OnOk result (out.new ≡ out.old ++ yes_or_no yes) }
{
    if yes {
        out.extend(b"yes")
    } else {
        out.extend(b"no")
    }
}

/// Appends the field of a value.
pub fn put_value(out: &mut Bytes, names: &NameTable<'_>, value: &Value) -> Result<(), Memory>
    ensures { OnOk result (out.new ≡ out.old ++ value_text names.now value.now) }
{
    match *value {
        Value::U8(number) => put_number(out, number as u64),
        Value::U16(number) => put_number(out, number as u64),
        Value::U32(number) => put_number(out, number as u64),
        Value::U64(number) => put_number(out, number),
        Value::Moment(moment) => put_number(out, moment.0),
        Value::Address(address) => put_address(out, address),
        Value::Token(token) => put_token(out, token),
        Value::Node(node) => put_text(out, names.node_name(node)),
        Value::Link(link) => put_text(out, names.link_name(link)),
        Value::Outsider(outsider) => put_text(out, names.outsider_name(outsider)),
        Value::Who(who) => put_text(out, names.who_name(who)),
        Value::SomeU16(index) => put_some_index(out, index),
        Value::SomeU64(number) => put_some_number(out, number),
        Value::NoAddress => put_none(out),
        Value::SomeToken(token) => put_some_token(out, token),
        Value::SomeLink(link) => put_some_link(out, names, link),
        Value::Shield(shielded) => put_shield(out, shielded),
        Value::Answer(yes) => put_answer(out, yes),
        Value::Why(why) => out.extend(why_word(why)),
    }
}
