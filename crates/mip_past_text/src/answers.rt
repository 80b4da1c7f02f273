//! Lines of questions with their answers.

ghost use Rattle.std.specs.Prelude.{◌≡◌, ◌++◌, ◌∷◌, [], OnOk, codes, decimal};
ghost use Rattle.mip_lines.specs.HexFields.{address_hex};
ghost use Rattle.mip_lines.specs.Lines.{line_text};
ghost use Rattle.mip_past_text.specs.Answers.{address_answer, line_if, moment_answer, number_answer, standing_answer, yes_or_no};
ghost use Rattle.mip_past_text.specs.Text.{plan_line};

use mip_discovery::PrefixPlan;
use mip_lines::{put_line, put_number};
use mip_rules_mobile::Attachment;
use mip_words::{Address, Bytes, Memory, Moment};
use std::alloc::Global;

/// Appends `QUESTION NODE ANSWER`, by an address.
pub fn put_address(
    out: &mut Bytes,
    question: &[u8],
    node: &[u8],
    answer: Option<Address>,
) -> Result<(), Memory>
    ensures { OnOk result (out.new ≡ out.old ++ line_text (question.now ∷ node.now ∷ address_answer answer ∷ [])) }
{
    match answer {
        Some(address) => put_line(out, &[question, node, &address.digits()]),
        None => put_line(out, &[question, node, b"-"]),
    }
}

/// Appends `QUESTION NODE ANSWER`, by an address, where there is an answer.
pub fn put_address_if(
    out: &mut Bytes,
    question: &[u8],
    node: &[u8],
    answer: Option<Address>,
) -> Result<(), Memory>
    ensures { OnOk result (out.new ≡ out.old ++ line_if question.now node.now answer) }
{
    match answer {
        Some(address) => put_line(out, &[question, node, &address.digits()]),
        None => Ok(()),
    }
}

/// Appends `QUESTION NODE ANSWER`, by a number.
pub fn put_count(
    alloc: Global,
    out: &mut Bytes,
    question: &[u8],
    node: &[u8],
    answer: u8,
) -> Result<(), Memory>
    ensures { OnOk result (out.new ≡ out.old ++ line_text (question.now ∷ node.now ∷ decimal answer ∷ [])) }
{
    let mut digits = Bytes::new(alloc);
    put_number(&mut digits, answer as u64)?;
    put_line(out, &[question, node, digits.as_slice()])
}

/// Appends `plan NODE VALID PREFERRED SINCE`.
pub fn put_plan(alloc: Global, out: &mut Bytes, node: &[u8], plan: PrefixPlan) -> Result<(), Memory>
    ensures { OnOk result (out.new ≡ out.old ++ plan_line node.now plan) }
{
    let mut valid = Bytes::new(alloc);
    put_number(&mut valid, plan.valid as u64)?;
    let mut preferred = Bytes::new(alloc);
    put_number(&mut preferred, plan.preferred as u64)?;
    let mut since = Bytes::new(alloc);
    put_number(&mut since, plan.since.0)?;
    put_line(
        out,
        &[
            b"plan",
            node,
            valid.as_slice(),
            preferred.as_slice(),
            since.as_slice(),
        ],
    )
}

/// Appends `standing NODE ANSWER`.
pub fn put_standing(out: &mut Bytes, node: &[u8], answer: Attachment) -> Result<(), Memory>
    ensures { OnOk result (out.new ≡ out.old ++ line_text (codes "standing" ∷ node.now ∷ standing_answer answer ∷ [])) }
{
    match answer {
        Attachment::Detached => put_line(out, &[b"standing", node, b"-"]),
        Attachment::AtHome => put_line(out, &[b"standing", node, b"home"]),
        Attachment::Away { .. } => put_line(out, &[b"standing", node, b"away"]),
    }
}

/// Appends `QUESTION NODE ADDRESS ANSWER`, by an address.
pub fn put_address_of(
    out: &mut Bytes,
    question: &[u8],
    node: &[u8],
    subject: Address,
    answer: Option<Address>,
) -> Result<(), Memory>
    ensures { OnOk result (out.new ≡ out.old ++ line_text (question.now ∷ node.now ∷ address_hex subject ∷ address_answer answer ∷ [])) }
{
    match answer {
        Some(address) => put_line(out, &[question, node, &subject.digits(), &address.digits()]),
        None => put_line(out, &[question, node, &subject.digits(), b"-"]),
    }
}

/// Appends `QUESTION NODE ADDRESS ANSWER`, by a number.
pub fn put_number_of(
    alloc: Global,
    out: &mut Bytes,
    question: &[u8],
    node: &[u8],
    subject: Address,
    answer: Option<u16>,
) -> Result<(), Memory>
    ensures { OnOk result (out.new ≡ out.old ++ line_text (question.now ∷ node.now ∷ address_hex subject ∷ number_answer answer ∷ [])) }
{
    let Some(number) = answer else {
        return put_line(out, &[question, node, &subject.digits(), b"-"]);
    };
    let mut digits = Bytes::new(alloc);
    put_number(&mut digits, number as u64)?;
    put_line(out, &[question, node, &subject.digits(), digits.as_slice()])
}

/// Appends `QUESTION NODE ADDRESS ANSWER`, by a moment in milliseconds.
pub fn put_moment_of(
    alloc: Global,
    out: &mut Bytes,
    question: &[u8],
    node: &[u8],
    subject: Address,
    answer: Option<Moment>,
) -> Result<(), Memory>
    ensures { OnOk result (out.new ≡ out.old ++ line_text (question.now ∷ node.now ∷ address_hex subject ∷ moment_answer answer ∷ [])) }
{
    let Some(moment) = answer else {
        return put_line(out, &[question, node, &subject.digits(), b"-"]);
    };
    let mut digits = Bytes::new(alloc);
    put_number(&mut digits, moment.0)?;
    put_line(out, &[question, node, &subject.digits(), digits.as_slice()])
}

/// Appends `QUESTION NODE ADDRESS ANSWER`, by yes or no.
pub fn put_whether(
    out: &mut Bytes,
    question: &[u8],
    node: &[u8],
    subject: Address,
    answer: bool,
) -> Result<(), Memory>
    ensures { OnOk result (out.new ≡ out.old ++ line_text (question.now ∷ node.now ∷ address_hex subject ∷ yes_or_no answer ∷ [])) }
{
    if answer {
        put_line(out, &[question, node, &subject.digits(), b"yes"])
    } else {
        put_line(out, &[question, node, &subject.digits(), b"no"])
    }
}

/// The word of a yes or a no.
pub fn yes_or_no(answer: bool) -> &'static [u8]
    ensures { result.now ≡ yes_or_no answer }
{
    if answer { b"yes" } else { b"no" }
}

/// Appends `QUESTION NODE ANSWER`, by a word.
pub fn put_word(out: &mut Bytes, question: &[u8], node: &[u8], answer: &[u8]) -> Result<(), Memory>
    ensures { OnOk result (out.new ≡ out.old ++ line_text (question.now ∷ node.now ∷ answer.now ∷ [])) }
{
    put_line(out, &[question, node, answer])
}
