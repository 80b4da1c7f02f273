/// What is made of a seed and a count.
#[derive(Clone, Copy)]
pub enum Product {
    /// `make SEED COUNT`: a schedule of so many events.
    Schedule,
    /// `sum SEED COUNT`: the summary of that schedule's run.
    Summary,
}
