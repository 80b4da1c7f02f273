ghost use Rattle.std.specs.Prelude.{◌≤◌};

/// What the events so far come to: no more milliseconds and no more packets carried than a schedule may have.
#[derive(Clone, Copy)]
pub struct Sums {
    pub count: usize,
    pub waits: u32,
    pub carries: u32,
    pub ghost few_waits: { waits ≤ 36000000 },
    pub ghost few_carries: { carries ≤ 200000 },
}
