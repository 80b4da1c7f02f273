ghost use Rattle.std.specs.Prelude.{◌≡◌, ℕ, ◌≤◌, ◌<◌, List, length, take, IfOk, OnErr, IsErrOf};
ghost use Rattle.std.specs.Io.KnownBytes.{append_known};
ghost use Rattle.std.specs.declared.option.Option.{Option};
ghost use Rattle.mip_outside.specs.Cause.{Rose};

use crate::put_fault::PutFault;

/// Where bytes go.
pub trait Sink {
    /// The bytes that it took, where they are told.
    ghost held: { Self → Option (List ℕ) };

    /// How many calls failed.
    ghost faults: { Self → ℕ };

    /// Takes bytes from the front of the piece, at least one unless the piece is empty, and says how
    /// many.
    fn give(&mut self, piece: &[u8]) -> Result<usize, PutFault>
        ensures within { IfOk result (λ n. n ≤ length piece.now) }
        ensures some { IfOk result (λ n. 0 < length piece.now → 0 < n) }
        ensures given { IfOk result (λ n. held self.new ≡ append_known (held self.old) (take n piece.now)) }
        ensures err { OnErr result (held self.new ≡ held self.old) }
        ensures no_fewer { faults self.old ≤ faults self.new }
        ensures cause { IsErrOf result PutFault.Failed → Rose (faults self.old) (faults self.new) };
}
