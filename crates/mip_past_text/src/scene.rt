use mip_past::Past;
use mip_past_led::Led;
use mip_schedule::Event;
use mip_symbols::Declaration;

/// A place of the history of a schedule: its version, the declarations that name the nodes, its events, what lies before the place, and
/// the run that is led along to there.
#[derive(Clone, Copy)]
pub struct Scene<'a> {
    pub version: u8,
    pub declarations: &'a [Declaration],
    pub events: &'a [Event],
    pub past: Past<'a>,
    pub led: &'a Led,
}
