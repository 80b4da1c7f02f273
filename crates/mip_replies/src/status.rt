ghost use Rattle.std.specs.Prelude.{◌≡◌, IfOk, OnErr};

use mip_words::Memory;

/// How the program ends.
#[derive(Clone, Copy, Debug, PartialEq, Eq)]
pub struct Status(pub u8);

impl Status {
    /// The whole text was written.
    pub const OK: Status = Status(0);
    /// The words are no form.
    pub const USAGE: Status = Status(1);
    /// The input is outside its grammar.
    pub const BAD: Status = Status(2);
    /// The source failed.
    pub const READ_FAULT: Status = Status(3);
    /// The sink failed.
    pub const WRITE_FAULT: Status = Status(4);
    /// Memory ran out.
    pub const MEMORY: Status = Status(5);
    /// The input is longer than the program takes.
    pub const TOO_LONG: Status = Status(6);
    /// The link failed.
    pub const LINK_FAULT: Status = Status(7);
    /// The input is no packet.
    pub const NOT_A_PACKET: Status = Status(8);
    /// The trace that is audited is not the permitted one.
    pub const DIFFERS: Status = Status(9);

    /// How the process ends: as the run did, or because memory ran out before it began.
    pub fn of(outcome: Result<Status, Memory>) -> Status
        ensures ok { IfOk outcome (λ status. result ≡ status) }
        ensures memory { OnErr outcome (result.0 ≡ 5) }
    {
        match outcome {
            Ok(status) => status,
            Err(Memory) => Status::MEMORY,
        }
    }
}
