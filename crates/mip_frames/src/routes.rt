ghost use Rattle.std.specs.Prelude.{◌≡◌, ◌∷◌, ◌++◌, [], length, slice_get, OnOk, OnErr};
ghost use Rattle.std.specs.List.{find};
ghost use Rattle.std.specs.Option.{option_copied};
ghost use Rattle.mip_frames.specs.Routing.{is_route_to, port_to, port_of};

use crate::route::Route;
use mip_words::{Address, Memory, Prefix};
use std::alloc::Global;
use std::marker::Model;

/// The place of the destination in a packet (RFC 8200 section 3).
const DESTINATION: usize = 24;

/// The bytes of a packet's first header (RFC 8200 section 3).
const HEADER: usize = 40;

/// Routes, of which the first that applies counts.
#[derive(Drop)]
pub struct Routes {
    list: Vec<Route>,
}

impl Model for Routes {
    ghost use Rattle.std.specs.Prelude.{List};
    ghost use Rattle.mip_frames.specs.declared.route.Route.{Route};

    ghost Value = { List Route };

    ghost view = { λ r. r.list.items };
}

impl Routes {
    pub fn new(alloc: Global) -> Routes
        ensures { result ≡ [] }
    {
        Routes {
            list: Vec::new(alloc),
        }
    }

    /// Appends a route.
    pub fn push(&mut self, route: Route) -> Result<(), Memory>
        ensures ok { OnOk result (self.new ≡ self.old ++ route ∷ []) }
        ensures err { OnErr result (self.new ≡ self.old) }
    {
        self.list.push(route)?;
        Ok(())
    }

    pub fn len(&self) -> usize
        ensures { result ≡ length self.now }
    {
        self.list.len()
    }

    /// The route at a place from 0; none past the end.
    pub fn at(&self, place: usize) -> Option<&Route>
        ensures { option_copied result ≡ slice_get self.now place }
    {
        self.list.get(place)
    }

    /// The port that a packet goes to: that of the first route with its destination's prefix, else the fallback. No route is for
    /// what is too short to have a destination.
    #[tactic(auto, unfolding(crate::specs::Routing::port_of))]
    pub fn port_of(&self, fallback: Option<u16>, packet: &[u8]) -> Option<u16>
        ensures { result ≡ port_of self.now fallback packet.now }
    {
        if packet.len() < HEADER {
            return fallback;
        }
        let destination = Address::at(packet, DESTINATION);
        port_to(&self.list, fallback, destination.prefix())
    }
}

fn route_to(routes: &[Route], prefix: Prefix) -> Option<&Route>
    ensures { option_copied result ≡ find (is_route_to prefix.0) routes.now }
{
    routes.iter().find(|route| route.prefix == prefix)
}

fn port_to(routes: &[Route], fallback: Option<u16>, prefix: Prefix) -> Option<u16>
    ensures { result ≡ port_to routes.now fallback prefix.0 }
{
    match route_to(routes, prefix) {
        Some(route) => Some(route.port),
        None => fallback,
    }
}
