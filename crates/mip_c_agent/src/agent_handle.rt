ghost use Rattle.std.specs.Prelude.{◌≡◌, is_some, None, Some};
ghost use Rattle.std.specs.Option.{option_map};

use crate::held::Held;
use crate::station::Station;
use mip_c_words::loose::Loose;
use std::alloc::Global;
use std::mem::replace;

/// A home agent by a handle: all zeros is a closed one. C neither looks into it nor writes it, and copies it only while it
/// is closed.
#[repr(C)]
#[derive(Drop)]
pub struct AgentHandle {
    pub is_open: bool,
    pub held: Held,
    pub ghost tied: { is_open ≡ is_some held.value },
}

/// Takes the station out of a handle, which is closed afterwards.
pub fn take_out(alloc: Global, handle: &mut AgentHandle) -> Option<Box<Station>>
    ensures out { option_map (λ b. b.value) result ≡ handle.old.held.value }
    ensures closed { handle.new.held.value ≡ None }
{
    let closed = AgentHandle {
        is_open: false,
        held: Held::nothing(),
    };
    let AgentHandle { is_open, held } = replace(handle, closed);
    if is_open {
        Some(held.into_loose(alloc).into_box())
    } else {
        None
    }
}

/// Puts a station into a closed handle, which is open afterwards.
pub fn put_in(handle: &mut AgentHandle, station: Box<Station>)
    requires { handle.old.held.value ≡ None }
    ensures { handle.new.held.value ≡ Some station.value }
{
    let open = AgentHandle {
        is_open: true,
        held: Held::of_loose(Loose::of(station)),
    };
    let _closed = replace(handle, open);
}
