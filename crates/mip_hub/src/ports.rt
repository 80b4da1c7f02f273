ghost use Rattle.std.specs.Prelude.{◌≡◌, [], OnOk};
ghost use Rattle.std.specs.List.{list_any, find};
ghost use Rattle.std.specs.Option.{option_copied};
ghost use Rattle.mip_hub.specs.Ports.{is_of, port_at, without, with_port};

use crate::port_row::PortRow;
use mip_words::{Address, Memory};
use std::alloc::Global;
use std::marker::Model;

/// Which port an address is at; each address is at one port at most.
#[derive(Drop)]
pub struct Ports {
    rows: Vec<PortRow>,
}

impl Model for Ports {
    ghost use Rattle.std.specs.Prelude.{List};
    ghost use Rattle.mip_hub.specs.declared.port_row.PortRow.{PortRow};

    ghost Value = { List PortRow };

    ghost view = { λ p. p.rows.items };
}

#[tactic(auto, unfolding(crate::specs::Ports::without))]
fn remove(rows: &mut Vec<PortRow>, address: Address)
    ensures { rows.new.items ≡ without address rows.old.items }
{
    rows.retain(|row| row.address.0 != address.0);
}

fn row_of(rows: &[PortRow], address: Address) -> Option<&PortRow>
    ensures { option_copied result ≡ find (is_of address) rows.now }
{
    rows.iter().find(|row| row.address.0 == address.0)
}

impl Ports {
    pub fn new(alloc: Global) -> Ports
        ensures { result ≡ [] }
    {
        Ports {
            rows: Vec::new(alloc),
        }
    }

    /// The port that has an address.
    #[tactic(auto, unfolding(crate::specs::Ports::port_at))]
    pub fn port_at(&self, address: Address) -> Option<u16>
        ensures { result ≡ port_at self.now address }
    {
        match row_of(&self.rows, address) {
            Some(row) => Some(row.port),
            None => None,
        }
    }

    /// Whether a port has the address.
    pub fn has(&self, address: Address) -> bool
        ensures { result ≡ list_any (is_of address) self.now }
    {
        self.rows.iter().any(|row| row.address.0 == address.0)
    }

    /// No port has the address from now on.
    pub fn free(&mut self, address: Address)
        ensures { self.new ≡ without address self.old }
    {
        remove(&mut self.rows, address);
    }

    /// The address is at this port from now on, whoever had it.
    #[tactic(auto, unfolding(crate::specs::Ports::with_port))]
    pub fn put(&mut self, address: Address, port: u16) -> Result<(), Memory>
        ensures { OnOk result (self.new ≡ with_port address port self.old) }
    {
        remove(&mut self.rows, address);
        self.rows.push(PortRow { address, port })?;
        Ok(())
    }
}
