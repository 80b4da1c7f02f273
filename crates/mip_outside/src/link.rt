ghost use Rattle.std.specs.Prelude.{◌≡◌, ℕ, ◌≤◌, List, [], ◌∷◌, ◌++◌, length, drop, Some, IfSome, IfOk, OnOk, OnErr, IsErrOf};
ghost use Rattle.std.specs.Option.{option_map};
ghost use Rattle.std.specs.declared.option.Option.{Option};
ghost use Rattle.mip_outside.specs.Cause.{Rose};
ghost use Rattle.mip_outside.specs.Datagrams.{IsReceived};
ghost use Rattle.mip_outside.specs.LinkCalls.{called, fault_of, failure_of};
ghost use Rattle.mip_outside.specs.declared.asked.Asked.TheVariants.{Listen, Send, Receive};
ghost use Rattle.mip_outside.specs.declared.link_call.LinkCall.{LinkCall};

use crate::failed::Failed;
use crate::put_fault::PutFault;

/// A link that carries datagrams between ports.
pub trait Link {
    /// The datagrams sent, each with the port that it was sent to, where they are told.
    ghost sent: { Self → Option (List (ℕ × List ℕ)) };

    /// The datagrams to come, with gaps between them, where they are told.
    ghost coming: { Self → Option (List (Option (List ℕ))) };

    /// The port of the last `listen_on` that was granted, where it is told.
    ghost port: { Self → Option (Option ℕ) };

    /// Its calls, oldest first.
    ghost calls: { Self → List LinkCall };

    /// How many calls failed.
    ghost faults: { Self → ℕ };

    /// Listens on a port from now on.
    fn listen_on(&mut self, to: u16) -> Result<(), Failed>
        ensures ok { OnOk result (port self.new ≡ option_map (λ _. Some to) (port self.old)) }
        ensures err { OnErr result (port self.new ≡ port self.old) }
        ensures sent { sent self.new ≡ sent self.old }
        ensures coming { coming self.new ≡ coming self.old }
        ensures calls { calls self.new ≡ calls self.old ++ called Listen (failure_of result) ∷ [] }
        ensures no_fewer { faults self.old ≤ faults self.new }
        ensures cause { OnErr result (Rose (faults self.old) (faults self.new)) };

    /// Sends a datagram to a port.
    fn send(&mut self, to: u16, datagram: &[u8]) -> Result<(), PutFault>
        ensures ok { OnOk result (sent self.new ≡ option_map (λ items. items ++ (to, datagram.now) ∷ []) (sent self.old)) }
        ensures err { OnErr result (sent self.new ≡ sent self.old) }
        ensures coming { coming self.new ≡ coming self.old }
        ensures port { port self.new ≡ port self.old }
        ensures calls { calls self.new ≡ calls self.old ++ called Send (fault_of result) ∷ [] }
        ensures no_fewer { faults self.old ≤ faults self.new }
        ensures cause { IsErrOf result PutFault.Failed → Rose (faults self.old) (faults self.new) };

    /// Waits at most so many milliseconds for a datagram, and says how many bytes of it stand in the
    /// slice. A datagram that is longer than the slice is cut.
    fn receive(&mut self, into: &mut [u8], wait_ms: u64) -> Result<Option<usize>, Failed>
        ensures within { IfOk result (λ answer. IfSome answer (λ n. n ≤ length into.new)) }
        ensures came { IfOk result (λ answer. IfSome (coming self.old) (λ items. IsReceived items answer into.new)) }
        ensures ok { OnOk result (coming self.new ≡ option_map (drop 1) (coming self.old)) }
        ensures err { OnErr result (coming self.new ≡ coming self.old) }
        ensures sent { sent self.new ≡ sent self.old }
        ensures port { port self.new ≡ port self.old }
        ensures calls { calls self.new ≡ calls self.old ++ called Receive (failure_of result) ∷ [] }
        ensures no_fewer { faults self.old ≤ faults self.new }
        ensures cause { OnErr result (Rose (faults self.old) (faults self.new)) };
}
