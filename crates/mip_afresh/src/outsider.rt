ghost use Rattle.std.specs.Prelude.{◌<◌};

/// An outsider of a schedule, which has few of them.
#[derive(Clone, Copy)]
pub struct Outsider {
    pub number: u8,
    pub ghost few: { number < 8 },
}
