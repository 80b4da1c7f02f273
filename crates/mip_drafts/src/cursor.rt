ghost use Rattle.std.specs.Prelude.{◌≡◌};

use mip_schedule::ScheduleFault;
use mip_symbols::Reason;

/// Where the reading of a text stands: the number of the next line, counted from 1, and the text from there on.
#[derive(Clone, Copy)]
pub struct Cursor<'a> {
    pub line: u32,
    pub rest: &'a [u8],
}

impl<'a> Cursor<'a> {
    /// The next line is bad for this reason.
    pub fn bad(self, why: Reason) -> ScheduleFault
        ensures { result ≡ ScheduleFault.Bad self.entry.line why }
    {
        ScheduleFault::Bad {
            line: self.line,
            why,
        }
    }
}
