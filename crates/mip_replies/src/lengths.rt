//! How many lines a text has, before it is read.

ghost use Rattle.std.specs.Prelude.{◌≡◌, ◌+◌, ◌≤◌, length};
ghost use Rattle.mip_lines.specs.Cutting.{parts};
ghost use Rattle.mip_replies.specs.Lengths.{event_lines, line_ends};

use mip_lines::cut_at;

/// The line ends in a text.
pub fn ends(text: &[u8]) -> usize
    ensures parts { result + 1 ≡ length (parts 10 text.now) }
    ensures ends { result ≡ line_ends text.now }
    ensures most { result ≤ length text.now }
{
    let mut count = 0;
    let mut rest = text;
    while let Some((_, more)) = cut_at(b'\n', rest) {
        count += 1;
        rest = more;
    }
    count
}

/// The line ends behind the first line `run`.
#[tactic(auto, unfolding(crate::specs::Lengths::ends_behind_run))]
pub fn event_lines(text: &[u8]) -> usize
    ensures { result ≡ event_lines text.now }
{
    let mut rest = text;
    while let Some((line, more)) = cut_at(b'\n', rest) {
        if line == b"run".as_slice() {
            return ends(more);
        }
        rest = more;
    }
    0
}
