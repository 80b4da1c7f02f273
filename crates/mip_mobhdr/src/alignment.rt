ghost use Rattle.std.specs.Prelude.{◌<◌, ◌≤◌};

/// The alignment of a mobility option, whose first byte stands `rest` bytes behind a multiple of `multiple` (RFC 6275 section 6.2.1).
#[derive(Clone, Copy)]
pub struct Alignment {
    pub multiple: usize,
    pub rest: usize,
    pub ghost small: { multiple ≤ 8 },
    pub ghost within: { rest < multiple },
}
