//! Outsiders listen, and take addresses.

ghost use Rattle.std.specs.Prelude.{◌<◌};
ghost use Rattle.mip_history.specs.Outsiders.{deafens, listens, squats, yields};
ghost use Rattle.mip_engine.specs.Standing.{Goes};
ghost use Rattle.mip_replay.specs.Ready.{IsEar};

use mip_engine::Engine;
use mip_entries::Entry;
use mip_words::{Address, Holder, LinkId, Memory};

/// An outsider listens on a link from now on.
pub(crate) fn listen(engine: &mut Engine, outsider: u8, link: LinkId) -> Result<(), Memory>
    requires { IsEar engine.old outsider link }
    ensures { Goes result engine.old engine.new (λ s run. listens run outsider link.0) }
{
    if engine.begin_listening(outsider, link)? {
        return engine.note(Entry::Listening { outsider, link });
    }
    engine.note(Entry::Idle)
}

/// An outsider listens on a link no more.
pub(crate) fn deafen(engine: &mut Engine, outsider: u8, link: LinkId) -> Result<(), Memory>
    requires { IsEar engine.old outsider link }
    ensures { Goes result engine.old engine.new (λ s run. deafens run outsider link.0) }
{
    if engine.end_listening(outsider, link) {
        return engine.note(Entry::Deafened { outsider, link });
    }
    engine.note(Entry::Idle)
}

/// An outsider takes an address, if nobody else has it.
pub(crate) fn squat(engine: &mut Engine, outsider: u8, address: Address) -> Result<(), Memory>
    requires { outsider < 8 }
    ensures { Goes result engine.old engine.new (λ s run. squats s run outsider address) }
{
    engine.claim(Holder::Outsider(outsider), address)
}

/// An outsider gives an address up, if it has it.
pub(crate) fn yield_up(engine: &mut Engine, outsider: u8, address: Address) -> Result<(), Memory>
    requires { outsider < 8 }
    ensures { Goes result engine.old engine.new (λ s run. yields s run outsider address) }
{
    engine.give_up(Holder::Outsider(outsider), address)
}
