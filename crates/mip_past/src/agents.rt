//! What a home agent has registered.

ghost use Rattle.std.specs.Prelude.{◌≡◌};
ghost use Rattle.mip_past.specs.Asking.{registered_careof_at, registered_sequence_at, registered_until_at, is_registered_at};

use crate::past::Past;
use mip_settled::homes;
use mip_words::{Address, Moment, NodeId};

impl Past<'_> {
    /// The care-of address that an agent has registered for a home.
    pub fn registered_careof(&self, agent: NodeId, home: Address) -> Option<Address>
        ensures { result ≡ registered_careof_at self.now agent.0 home }
    {
        homes::careof(self.entries, self.moment(), agent.0, home)
    }

    /// The sequence that an agent keeps of a home: that of the last update of the home in its present life.
    pub fn registered_sequence(&self, agent: NodeId, home: Address) -> Option<u16>
        ensures { result ≡ registered_sequence_at self.now agent.0 home }
    {
        match homes::registration(self.entries, agent.0, home) {
            Some(last) => Some(last.sequence),
            None => None,
        }
    }

    /// The end of a home's registration at an agent, while that lies ahead.
    pub fn registered_until(&self, agent: NodeId, home: Address) -> Option<Moment>
        ensures { result ≡ registered_until_at self.now agent.0 home }
    {
        let last = homes::registration(self.entries, agent.0, home)?;
        if last.careof.0 != home.0 && self.moment().0 < last.end.0 {
            Some(last.end)
        } else {
            None
        }
    }

    /// Some agent has the home registered.
    pub fn is_registered(&self, home: Address) -> bool
        ensures { result ≡ is_registered_at self.now home }
    {
        homes::is_registered_anywhere(self.entries, self.moment(), home)
    }
}
