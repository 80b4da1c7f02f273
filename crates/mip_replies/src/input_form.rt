use crate::told_run::ToldRun;

/// What is read from the input.
#[derive(Clone, Copy)]
pub enum InputForm {
    /// `replay` and `claims`: a schedule, whose run is told.
    Schedule(ToldRun),
    /// `decode`: the bytes of one packet, which are listed.
    Packet,
    /// `audit`: a schedule, a line `trace`, and the trace that is judged.
    Audit,
}
