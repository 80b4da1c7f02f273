use mip_words::Address;

/// What is told of the run of a schedule.
#[derive(Clone, Copy)]
pub enum ToldRun {
    /// The trace of the run.
    Trace,
    /// What the claims of the run are on a link, and who holds an address that is asked for.
    Claims(Option<Address>),
}
