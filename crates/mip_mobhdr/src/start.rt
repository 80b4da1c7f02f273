ghost use Rattle.std.specs.Prelude.{◌≤◌};

/// The place in a message at which its options begin: behind the fixed fields, of which no message has more than 24 bytes.
#[derive(Clone, Copy)]
pub struct Start {
    pub place: usize,
    pub ghost early: { place ≤ 24 },
}
