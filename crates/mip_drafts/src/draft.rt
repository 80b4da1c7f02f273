ghost use Rattle.std.specs.Prelude.{List, ℕ, Result};
ghost use Rattle.mip_symbols.specs.declared.reason.Reason.{Reason};
ghost use Rattle.mip_lines.specs.Cutting.{texts};
ghost use Rattle.mip_drafts.specs.Adding.{Becomes};

use mip_symbols::LineFault;
use std::alloc::Global;

/// What the lines so far said.
pub trait Draft {
    /// What one more line of these fields makes of it, or why that line may not stand behind those before it.
    ghost onto: { Self → List (List ℕ) → Result Self Reason };

    /// Adds a line of these fields.
    fn add(&mut self, alloc: Global, row: &[&[u8]]) -> Result<(), LineFault>
        ensures { Becomes self.new result (onto self.old (texts row.now)) };
}
