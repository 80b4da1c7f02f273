//! Rows, as they are read.

ghost use Rattle.std.specs.Prelude.{◌≡◌, length, Ok, IfOk};
ghost use Rattle.std.specs.Str.{bytes_eq};
ghost use Rattle.mip_lines.specs.Cutting.{texts};
ghost use Rattle.mip_symbols.specs.Places.{NamesFound};
ghost use Rattle.mip_rows.specs.PacketKinds.{kind_of};
ghost use Rattle.mip_rows.specs.Ranges.{IsRowOf};
ghost use Rattle.mip_rows.specs.Rows as rows;
ghost use Rattle.mip_rows.specs.Rows.{GivesRow};
ghost use Rattle.mip_rows.specs.declared.row.Row.{Row as ReadRow};

use crate::fault::RowFault;
use crate::field_kind::Kind;
use crate::field_reading as fields;
use crate::packet_kind::kind;
use crate::row::Row;
use crate::row_form::RowForm;
use crate::tail::Tail;
use crate::value::Value;
use crate::values::Values;
use crate::why_words::{dropped_whys, gone_whys, unsent_whys};
use mip_symbols::{FewDeclarations, Reason, Sort, kinds};
use mip_words::Bytes;
use std::alloc::Global;

/// The value of this kind that a field stands for.
fn read_value(ds: &FewDeclarations<'_>, kind: Kind, field: &[u8]) -> Result<Value, Reason>
    ensures { result ≡ rows.value_of ds.now kind field.now }
{
    match kind {
        Kind::U8 => Ok(Value::U8(fields::u8_field(field)?)),
        Kind::U16 => Ok(Value::U16(fields::u16_field(field)?)),
        Kind::U32 => Ok(Value::U32(fields::u32_field(field)?)),
        Kind::U64 => Ok(Value::U64(fields::u64_field(field)?)),
        Kind::Cause => Ok(Value::U8(fields::cause(field)?)),
        Kind::Moment => Ok(Value::Moment(fields::moment(field)?)),
        Kind::Address => Ok(Value::Address(fields::address(field)?)),
        Kind::Token => Ok(Value::Token(fields::token(field)?)),
        Kind::Node => Ok(Value::Node(kinds::node(Sort::Node, ds, field)?)),
        Kind::Link => Ok(Value::Link(kinds::link(ds, field)?)),
        Kind::Outsider => Ok(Value::Outsider(kinds::outsider(ds, field)?)),
        Kind::Who => Ok(Value::Who(fields::who(ds, field)?)),
        Kind::SomeU16 => Ok(Value::SomeU16(fields::some_u16(field)?)),
        Kind::SomeU64 => Ok(Value::SomeU64(fields::some_u64(field)?)),
        Kind::SomeAddress => Ok(Value::some_address(fields::some_address(field)?)),
        Kind::SomeToken => Ok(Value::SomeToken(fields::some_token(field)?)),
        Kind::SomeLink => Ok(Value::SomeLink(kinds::some_link(ds, field)?)),
        Kind::Shield => Ok(Value::Shield(fields::shield(field)?)),
        Kind::Answer => Ok(Value::Answer(fields::answer(field)?)),
        Kind::Gone => Ok(Value::Why(fields::why(&gone_whys(), field)?)),
        Kind::Unsent => Ok(Value::Why(fields::why(&unsent_whys(), field)?)),
        Kind::Dropped => Ok(Value::Why(fields::why(&dropped_whys(), field)?)),
    }
}

/// The values that fields stand for, each of its kind.
fn read_values(ds: &FewDeclarations<'_>, form: RowForm<'_>, row: &[&[u8]]) -> Result<Values, Reason>
    requires { length row.now ≡ length form.kinds.now }
    ensures { result ≡ rows.values_of ds.now form.entry.kinds.now (texts row.now) }
{
    let kinds = form.kinds;
    let mut values = Values::new();
    for place in 0..kinds.len() {
        match read_value(ds, kinds[place], row[place]) {
            Ok(value) => values.push(value),
            Err(why) => return Err(why),
        }
    }
    Ok(values)
}

/// Whether the word is that of the packet's kind.
fn is_of_kind(packet: &Bytes, word: &[u8]) -> bool
    ensures { result ≡ bytes_eq (kind_of packet.now) word.now }
{
    kind(packet.as_slice()) == word
}

fn read_packet(alloc: Global, word: &[u8], field: &[u8]) -> Result<Bytes, RowFault>
    ensures { GivesRow result (rows.packet_in word.now field.now) }
{
    let packet = fields::bytes(alloc, field)?;
    if is_of_kind(&packet, word) {
        Ok(packet)
    } else {
        Err(RowFault::Bad(Reason::Name))
    }
}

/// The bytes of a tail of these fields.
#[tactic(auto, unfolding(crate::specs::Rows::tail_of))]
fn read_tail(alloc: Global, tail: Tail, row: &[&[u8]]) -> Result<Bytes, RowFault>
    ensures { GivesRow result (rows.tail_of tail (texts row.now)) }
{
    match (tail, row) {
        (Tail::Nothing, []) => Ok(Bytes::new(alloc)),
        (Tail::Bytes, [field]) => fields::bytes(alloc, field),
        (Tail::Packet, [word, field]) => read_packet(alloc, word, field),
        _ => Err(RowFault::Bad(Reason::Form)),
    }
}

/// The row of this form that fields stand for.
#[tactic(auto, unfolding(crate::specs::Rows::row_of))]
fn row_of(
    alloc: Global,
    ds: &FewDeclarations<'_>,
    form: RowForm<'_>,
    row: &[&[u8]],
) -> Result<Row, RowFault>
    ensures { GivesRow result (rows.row_of ds.now form.entry.kinds.now form.entry.tail (texts row.now)) }
{
    let count = form.kinds.len();
    if row.len() != count + form.tail.count() {
        return Err(RowFault::Bad(Reason::Form));
    }
    let (heads, ends) = row.split_at(count);
    let values = read_values(ds, form, heads)?;
    let bytes = read_tail(alloc, form.tail, ends)?;
    Ok(Row { values, bytes })
}

/// Reads a row of this form. It is refused for its number of fields first, then for the first field from
/// the left that is none of its kind.
pub fn read_row(
    alloc: Global,
    ds: &FewDeclarations<'_>,
    form: RowForm<'_>,
    row: &[&[u8]],
) -> Result<Row, RowFault>
    // The fields are those of the row read, which is one of this form.
    ensures found { IfOk result (λ r. IsRowOf ds.now form.entry.kinds.now form.entry.tail r (texts row.now)) }
    // The fields of such a row are read as it, where each name is found.
    ensures only { (r : ReadRow) → NamesFound ds.now → IsRowOf ds.now form.entry.kinds.now form.entry.tail r (texts row.now) → GivesRow result (Ok r) }
    ensures exact { GivesRow result (rows.row_of ds.now form.entry.kinds.now form.entry.tail (texts row.now)) }
{
    ds.few();
    row_of(alloc, ds, form, row)
}
