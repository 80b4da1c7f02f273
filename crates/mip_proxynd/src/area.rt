//! The options of a message, one after another.

ghost use Rattle.std.specs.Prelude.{◌≡◌, ◌≤◌, ◌<◌, length, IfOk};
ghost use Rattle.mip_words.specs.Steps.{Gives};
ghost use Rattle.mip_proxynd.specs.Options.{has_units, layer_at};
ghost use Rattle.mip_proxynd.specs.Reading.{noted, option_at, area_of};

use crate::fault::NeighbourFault;
use crate::layers::Layers;

/// Whether an option of this type may have this length, in units of 8 bytes.
fn fits(kind: u8, units: u8) -> bool
    ensures { result ≡ has_units kind units }
{
    match kind {
        1 | 2 => units == 1,
        _ => units != 0,
    }
}

/// The link-layer address of the option that begins these bytes.
fn layer_of(option: &[u8]) -> [u8; 6]
    requires { 8 ≤ length option.now }
    ensures { result ≡ layer_at option.now }
{
    let mut layer = [0; 6];
    layer.copy_from_slice(&option[2..8]);
    layer
}

/// The options seen so far, with the option that begins these bytes.
fn with_option(seen: Layers, option: &[u8]) -> Layers
    requires { 8 ≤ length option.now }
    ensures { result ≡ noted seen option.now }
{
    match option[0] {
        1 => Layers {
            source: seen.source.or(Some(layer_of(option))),
            ..seen
        },
        2 => Layers {
            target: seen.target.or(Some(layer_of(option))),
            ..seen
        },
        _ => seen,
    }
}

/// The options seen so far, with the option that begins these bytes, and the bytes that it takes.
#[tactic(auto, unfolding(mip_icmp::specs::Walk::option_by))]
fn option_of(place: usize, seen: Layers, bytes: &[u8]) -> Result<(Layers, usize), NeighbourFault>
    ensures exact { Gives (λ x. x) result (option_at place seen bytes.now) }
    ensures some { IfOk result (λ x. 0 < x.1) }
    ensures inside { IfOk result (λ x. x.1 ≤ length bytes.now) }
{
    if bytes.len() < 2 {
        return Err(NeighbourFault::Option { place });
    }
    let size = 8 * usize::from(bytes[1]);
    if bytes.len() < size || !fits(bytes[0], bytes[1]) {
        return Err(NeighbourFault::Option { place });
    }
    Ok((with_option(seen, bytes), size))
}

/// The options from a place of a message to its end.
pub(crate) fn read_area(message: &[u8], start: usize) -> Result<Layers, NeighbourFault>
    requires { start ≤ length message.now }
    ensures { Gives (λ x. x) result (area_of start message.now) }
{
    let mut seen = Layers {
        source: None,
        target: None,
    };
    let (_, mut rest) = message.split_at(start);
    while !rest.is_empty() {
        let place = message.len() - rest.len();
        let (with_this, size) = option_of(place, seen, rest)?;
        let (_, behind) = rest.split_at(size);
        seen = with_this;
        rest = behind;
    }
    Ok(seen)
}
