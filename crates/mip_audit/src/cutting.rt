//! Where the trace stands in what is given.

ghost use Rattle.std.specs.Prelude.{◌≡◌, ◌+◌, ◌∷◌, ◌++◌, [], None, Some, length, MatchOption, IfSome, codes};
ghost use Rattle.std.specs.Str.{bytes_eq};
ghost use Rattle.mip_audit.specs.Cutting.{cut_text, HasNoTraceLine, trace_line};
ghost use Rattle.mip_audit.specs.Lines.{lines_of};

use mip_lines::cut_at;

/// The first line, without its end, and what stands behind it; none where no line ends.
#[tactic(auto, using(crate::proofs::LineLaws::line_cut, crate::proofs::CutLaws::no_trace_line))]
fn first_line(text: &[u8]) -> Option<(&[u8], &[u8])>
    ensures lines { MatchOption result (HasNoTraceLine text.now) (λ p. lines_of text.now ≡ (p.0.now ++ 10 ∷ []) ∷ lines_of p.1.now) }
    ensures shorter { IfSome result (λ p. length p.0.now + length p.1.now + 1 ≡ length text.now) }
{
    cut_at(b'\n', text)
}

fn is_trace(line: &[u8]) -> bool
    ensures { result ≡ bytes_eq line.now (codes "trace") }
{
    line == b"trace".as_slice()
}

/// The schedule, which stands before the first line `trace`, and the trace behind it; none where there is no such line.
///
/// A line ends with a line end: what stands behind the last one is no line `trace`.
pub fn cut_trace(given: &[u8]) -> Option<(&[u8], &[u8])>
    ensures exact { MatchOption result (cut_text given.now ≡ None) (λ p. cut_text given.now ≡ Some (p.0.now, p.1.now)) }
    ensures whole { IfSome result (λ p. given.now ≡ p.0.now ++ (trace_line ++ p.1.now)) }
    ensures first { MatchOption result (HasNoTraceLine given.now) (λ p. HasNoTraceLine p.0.now) }
{
    let mut rest = given;
    while let Some((line, more)) = first_line(rest) {
        if is_trace(line) {
            let (schedule, _) = given.split_at(given.len() - rest.len());
            return Some((schedule, more));
        }
        rest = more;
    }
    None
}
