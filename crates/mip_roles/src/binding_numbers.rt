ghost use Rattle.std.specs.Prelude.{◌≤◌};

/// How many numbers a home's bindings may have.
#[derive(Clone, Copy)]
pub struct BindingNumbers {
    pub count: u8,
    pub ghost some: { 1 ≤ count },
    pub ghost few: { count ≤ 8 },
}
