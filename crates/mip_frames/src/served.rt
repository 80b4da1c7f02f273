/// How the run of a node over a link ended.
#[derive(Clone, Copy, Debug, PartialEq, Eq)]
pub enum Served {
    /// Each of its turns was done.
    Done,
    /// A call of its link failed.
    LinkFault,
    /// A call of the sink that its text goes to failed.
    WriteFault,
    /// Memory has run out.
    Memory,
}
