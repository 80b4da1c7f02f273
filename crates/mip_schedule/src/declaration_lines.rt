//! The lines of declarations, read to the line `run`.

ghost use Rattle.std.specs.Prelude.{◌≡◌, ◌+◌, ◌<◌, ◌≤◌, ◌^◌, [], length, IfOk};
ghost use Rattle.mip_lines.specs.Cutting.{fields_of, rows_of, texts};
ghost use Rattle.mip_schedule.specs.DeclarationTimes as rows;
ghost use Rattle.mip_schedule.specs.Declarings.{next_of, declared};
ghost use Rattle.mip_schedule.specs.Faults.{GivesText};
ghost use Rattle.mip_symbols.specs.Places.{AreFew};
ghost use Rattle.mip_schedule.specs.Reading as reading;

use crate::declaration_line::declaration_line;
use crate::fault::ScheduleFault;
use mip_lines::{cut_at, few_fields};
use mip_symbols::{Declaration, Declarations, FewDeclarations, Reason};
use std::alloc::Global;

/// Declarations, the number of the line behind `run`, and the text from there on.
#[derive(Drop)]
pub struct Declared<'a> {
    pub declarations: Declarations,
    pub line: u32,
    pub rest: &'a [u8],
}

fn is_run(row: &[&[u8]]) -> bool
    ensures { result ≡ reading.is_run (texts row.now) }
{
    let [word] = row else {
        return false;
    };
    *word == b"run".as_slice()
}

/// The declaration of one line, or none at `run`.
#[tactic(auto, unfolding(crate::specs::Declarings::next_of), using(crate::proofs::LongLaws::long_next))]
fn next_declaration(
    ds: &FewDeclarations<'_>,
    line: u32,
    row: &[u8],
) -> Result<Option<Declaration>, ScheduleFault>
    ensures { GivesText (λ d. d) result (next_of ds.now line (fields_of row.now)) }
{
    let Some(row) = few_fields(row) else {
        return Err(ScheduleFault::Bad {
            line,
            why: Reason::Form,
        });
    };
    if is_run(row.as_slice()) {
        return Ok(None);
    }
    match declaration_line(ds, row.as_slice()) {
        Ok(d) => Ok(Some(d)),
        Err(why) => Err(ScheduleFault::Bad { line, why }),
    }
}

/// The declarations of a text whose first line has this number.
pub fn declarations_from(
    alloc: Global,
    first: u32,
    text: &[u8],
) -> Result<Declared<'_>, ScheduleFault>
    requires { first + length text.now < 2 ^ 32 }
    ensures exact { GivesText declared result (reading.declarations_of [] first (rows_of text.now)) }
    ensures few { IfOk result (λ d. AreFew d.declarations) }
    ensures short { IfOk result (λ d. d.line + length d.rest.now ≤ first + length text.now) }
{
    let mut declarations = Declarations::new(alloc);
    let mut line = first;
    let mut rest = text;
    while let Some((row, more)) = cut_at(b'\n', rest) {
        let next = match next_declaration(
            &FewDeclarations::new(declarations.as_slice()),
            line,
            row,
        ) {
            Ok(next) => next,
            Err(fault) => return Err(fault),
        };
        line += 1;
        rest = more;
        let Some(d) = next else {
            return Ok(Declared {
                declarations,
                line,
                rest,
            });
        };
        match declarations.push(d) {
            Ok(()) => {}
            Err(_) => return Err(ScheduleFault::Memory),
        }
    }
    Err(ScheduleFault::Bad {
        line,
        why: Reason::Form,
    })
}
