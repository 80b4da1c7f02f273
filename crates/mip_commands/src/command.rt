use crate::draft::Draft;
use mip_words::Address;

/// What the words of a command line ask for.
#[derive(Clone, Copy)]
pub enum Command {
    /// `replay`: the trace of a schedule.
    Replay,
    /// `decode`: the listing of one packet.
    Decode,
    /// `claims` or `claims ADDRESS`: what the claims of a schedule's run are on a link, and who holds the address.
    Claims(Option<Address>),
    /// `audit`: whether a given trace is the one of a schedule's run, and else the first line that differs.
    Audit,
    /// `make SEED COUNT`: the schedule that is made of these.
    Make(Draft),
    /// `sum SEED COUNT`: the summary of that schedule's run.
    Sum(Draft),
    /// `node TURNS`: one node over a link, for so many turns, 1 to 1,000,000.
    Node(u32),
    /// `hub TURNS`: a hub for nodes, for so many turns, 1 to 1,000,000.
    Hub(u32),
}
