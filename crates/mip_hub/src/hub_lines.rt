ghost use Rattle.std.specs.Prelude.{◌≡◌, ◌∷◌, ◌++◌, [], length, slice_get, OnOk, OnErr};
ghost use Rattle.std.specs.Option.{option_copied};

use crate::hub_line::HubLine;
use mip_words::Memory;
use std::alloc::Global;
use std::marker::Model;

/// The lines of a hub, in order.
#[derive(Drop)]
pub struct HubLines {
    list: Vec<HubLine>,
}

impl Model for HubLines {
    ghost use Rattle.std.specs.Prelude.{List};
    ghost use Rattle.mip_hub.specs.declared.hub_line.HubLine.{HubLine};

    ghost Value = { List HubLine };

    ghost view = { λ l. l.list.items };
}

impl HubLines {
    pub fn new(alloc: Global) -> HubLines
        ensures { result ≡ [] }
    {
        HubLines {
            list: Vec::new(alloc),
        }
    }

    /// Appends a line.
    pub fn push(&mut self, line: HubLine) -> Result<(), Memory>
        ensures ok { OnOk result (self.new ≡ self.old ++ line ∷ []) }
        ensures err { OnErr result (self.new ≡ self.old) }
    {
        self.list.push(line)?;
        Ok(())
    }

    pub fn len(&self) -> usize
        ensures { result ≡ length self.now }
    {
        self.list.len()
    }

    /// The line at a place from 0; none past the end.
    pub fn at(&self, place: usize) -> Option<&HubLine>
        ensures { option_copied result ≡ slice_get self.now place }
    {
        self.list.get(place)
    }

    pub fn as_slice(&self) -> &[HubLine]
        ensures { result.now ≡ self.now }
    {
        self.list.as_slice()
    }
}
