//! The steps of a call that leave a link, and that begin a new life.

ghost use Rattle.std.specs.Prelude.{OnOk};
ghost use Rattle.mip_rules_mobile.specs.Steps.{Detaches, Restarts};
ghost use Rattle.mip_rules_mobile.specs.Transitions.{Transition, noted};
ghost use Rattle.mip_mobile_context.specs.Seen.{Shows};

use crate::call_context::CallContext;
use mip_entries::{Answer, Entry};
use mip_mobile_state::peers;
use mip_nonce::Secrets;
use mip_rules_mobile::Attachment;
use mip_words::{MYSELF, Memory};
use std::alloc::Global;

impl CallContext {
    /// The mobile uses no address any more: every trial is given up, and every timer stops.
    pub fn detach(&mut self)
        ensures { (t : Transition) → Shows self.old t → Shows self.new (noted (Detaches) t) }
    {
        self.known.standing = Attachment::Detached;
        self.known.registered = None;
        self.known.discovery = None;
        self.known.list.rest_all();
        peers::unbind_all(&mut self.known.peers);
    }

    /// The mobile loses all that it keeps, and goes on with these secrets.
    pub fn restart(&mut self, alloc: Global, secrets: Secrets) -> Result<(), Memory>
        ensures { (t : Transition) → Shows self.old t → OnOk result (Shows self.new (noted (Restarts secrets) t)) }
    {
        self.answers
            .push(Answer::Note(Entry::Restarted { node: MYSELF }))?;
        self.known = self.known.again(alloc, secrets)?;
        Ok(())
    }
}
