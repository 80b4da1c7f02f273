//! The first three lines: the version, the seed and the moment of the start.

ghost use Rattle.std.specs.Prelude.{◌≢◌, Err, ◌+◌, ◌≤◌, ◌<◌, length, IfOk};
ghost use Rattle.mip_lines.specs.Cutting.{rows_of, texts};
ghost use Rattle.mip_words.specs.Steps.{Gives};
ghost use Rattle.mip_schedule.specs.Faults.{GivesText};
ghost use Rattle.mip_schedule.specs.Heads.{head_seen};
ghost use Rattle.mip_schedule.specs.Reading as reading;

use crate::fault::ScheduleFault;
use mip_lines::{cut_at, few_fields};
use mip_symbols::Reason;
use mip_symbols::kinds::{seed, u8_in, u64_in};
use mip_words::Moment;

/// What the first three lines say, and the text behind them.
#[derive(Drop)]
pub struct Head<'a> {
    pub version: u8,
    pub seed: [u8; 32],
    pub start: Moment,
    pub rest: &'a [u8],
}

/// The field of a line of this word and one field.
fn headed<'a>(word: &[u8], row: &[&'a [u8]]) -> Result<&'a [u8], Reason>
    ensures { Gives (λ f. f.now) result (reading.headed word.now (texts row.now)) }
{
    let [first, field] = row else {
        return Err(Reason::Form);
    };
    if *first == word {
        Ok(*field)
    } else {
        Err(Reason::Form)
    }
}

/// The field of the first line, which has this word, and the text behind it. A fault names the line by its number.
pub fn head_field<'a>(
    word: &[u8],
    line: u32,
    text: &'a [u8],
) -> Result<(&'a [u8], &'a [u8]), ScheduleFault>
    ensures exact { GivesText (λ p. (p.0.now, rows_of p.1.now)) result (reading.head_field word.now line (rows_of text.now)) }
    ensures memory { result ≢ Err ScheduleFault.Memory }
    ensures short { IfOk result (λ p. length p.1.now < length text.now) }
{
    let Some((row, rest)) = cut_at(b'\n', text) else {
        return Err(ScheduleFault::Bad {
            line,
            why: Reason::Form,
        });
    };
    let Some(row) = few_fields(row) else {
        return Err(ScheduleFault::Bad {
            line,
            why: Reason::Form,
        });
    };
    match headed(word, row.as_slice()) {
        Ok(field) => Ok((field, rest)),
        Err(why) => Err(ScheduleFault::Bad { line, why }),
    }
}

/// The version of the text in its first line, `mip 1` or a later one of so many, and the text behind it.
#[tactic(auto, unfolding(crate::specs::Reading::version_line))]
pub fn version_line(versions: u8, text: &[u8]) -> Result<(u8, &[u8]), ScheduleFault>
    ensures exact { GivesText (λ p. (p.0, rows_of p.1.now)) result (reading.version_line versions (rows_of text.now)) }
    ensures memory { result ≢ Err ScheduleFault.Memory }
    ensures short { IfOk result (λ p. length p.1.now < length text.now) }
{
    let (field, rest) = head_field(b"mip", 1, text)?;
    match u8_in(1, versions, field) {
        Ok(version) => Ok((version, rest)),
        Err(why) => Err(ScheduleFault::Bad { line: 1, why }),
    }
}

/// The seed in the second line, `seed S`, and the text behind it.
#[tactic(auto, unfolding(crate::specs::Reading::seed_line))]
pub fn seed_line(text: &[u8]) -> Result<([u8; 32], &[u8]), ScheduleFault>
    ensures exact { GivesText (λ p. (p.0, rows_of p.1.now)) result (reading.seed_line (rows_of text.now)) }
    ensures memory { result ≢ Err ScheduleFault.Memory }
    ensures short { IfOk result (λ p. length p.1.now < length text.now) }
{
    let (field, rest) = head_field(b"seed", 2, text)?;
    match seed(field) {
        Ok(seed) => Ok((seed, rest)),
        Err(why) => Err(ScheduleFault::Bad { line: 2, why }),
    }
}

#[tactic(auto, unfolding(crate::specs::Reading::start_line))]
fn start_line(text: &[u8]) -> Result<(u64, &[u8]), ScheduleFault>
    ensures exact { GivesText (λ p. (p.0, rows_of p.1.now)) result (reading.start_line (rows_of text.now)) }
    ensures memory { result ≢ Err ScheduleFault.Memory }
    ensures short { IfOk result (λ p. length p.1.now < length text.now) }
{
    let (field, rest) = head_field(b"start", 3, text)?;
    match u64_in(0, 0x0100_0000_0000, field) {
        Ok(start) => Ok((start, rest)),
        Err(why) => Err(ScheduleFault::Bad { line: 3, why }),
    }
}

/// The head of a text.
#[tactic(auto, unfolding(crate::specs::Reading::head_of))]
pub fn read_head(text: &[u8]) -> Result<Head<'_>, ScheduleFault>
    ensures exact { GivesText head_seen result (reading.head_of (rows_of text.now)) }
    ensures memory { result ≢ Err ScheduleFault.Memory }
    ensures short { IfOk result (λ h. length h.rest.now + 3 ≤ length text.now) }
{
    let (version, rest) = version_line(2, text)?;
    let (seed, rest) = seed_line(rest)?;
    let (start, rest) = start_line(rest)?;
    Ok(Head {
        version,
        seed,
        start: Moment(start),
        rest,
    })
}
