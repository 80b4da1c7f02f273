//! A station behind a pointer that C carries, and how it goes in and out.

ghost use Rattle.std.specs.Prelude.{◌≡◌, Some, None, Option, is_some, true};
ghost use Rattle.std.specs.Coded.{coded_option};
ghost use Rattle.mip_c_words.specs.Keeping.{keeps};
ghost use Rattle.mip_c_correspondent.specs.contracts.station.Station.{the_row as station_row};

use crate::station::Station;
use mip_c_words::loose::Loose;
use std::alloc::Global;
use std::marker::Model;
use std::ptr::null_mut;

/// What C does not see.
#[repr(C)]
pub struct Opaque {
    byte: u8,
}

/// What an open handle holds. C does not look into it.
#[repr(C)]
#[derive(Drop)]
pub struct Held {
    at: *mut Opaque,
    pub ghost value: { Option station_row.Denot } by { coded_option station_row.coded },
}

impl Model for Held {
    ghost also_owns = { λ h. keeps station_row h.at h.value };
}

impl Held {
    pub fn nothing() -> Held
        ensures { result.value ≡ None }
    {
        Held { at: null_mut() }
    }

    pub fn of_loose(loose: Loose<Station, Global>) -> Held
        ensures { result.value ≡ Some loose.value }
    {
        let Loose { at, alloc: _ } = loose;
        Held {
            at: at as *mut Opaque,
        }
    }

    pub fn into_loose(self, alloc: Global) -> Loose<Station, Global>
        requires { is_some self.value ≡ true }
        ensures { self.value ≡ Some result.value }
    {
        let Held { at } = self;
        Loose {
            at: at as *mut Station,
            alloc,
        }
    }
}
