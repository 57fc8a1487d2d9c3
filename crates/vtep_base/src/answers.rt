//! Answers that several layers give.

ghost use Rattle.std.specs.Prelude.{◌≡◌};
ghost use Rattle.vtep_base.specs.Answers.{status_number};

use std::alloc::{AllocError, AllocFailed};

/// The identifier of a row, as 128 bits (RFC 9562, version 8).
pub type RowId = u128;

/// A call found no memory.
#[derive(Clone, Copy, Debug, PartialEq, Eq)]
pub struct OutOfMemory;

impl From<AllocError> for OutOfMemory {
    fn from(_error: AllocError) -> OutOfMemory {
        OutOfMemory
    }
}

impl<T: Drop> From<AllocFailed<T>> for OutOfMemory {
    fn from(_error: AllocFailed<T>) -> OutOfMemory {
        OutOfMemory
    }
}

/// How a top call ended.
#[derive(Clone, Copy, Debug, PartialEq, Eq)]
pub enum Status {
    Done,
    Usage,
    Refused,
    ReadFault,
    WriteFault,
    NoMemory,
    AcceptFault,
    SpawnFault,
    JournalFull,
}

impl Status {
    /// The exit status of the process.
    pub fn number(self) -> u8
        ensures { result ≡ status_number self }
    {
        match self {
            Status::Done => 0,
            Status::Usage => 2,
            Status::Refused => 3,
            Status::ReadFault => 4,
            Status::WriteFault => 5,
            Status::NoMemory => 6,
            Status::AcceptFault => 7,
            Status::SpawnFault => 8,
            Status::JournalFull => 9,
        }
    }
}

/// Who replicates the frames of a switch that go to several gateways (vtep(5), `replication_mode`).
#[derive(Clone, Copy, Debug, PartialEq, Eq)]
pub enum Mode {
    /// The gateway where the frame entered.
    Source,
    /// A service node.
    Service,
}

/// Why a line of a script is refused.
#[derive(Clone, Copy, Debug, PartialEq, Eq)]
pub enum LineReason {
    /// A byte is outside 0x20 to 0x7e.
    Byte,
    /// The first line with words is not the opening of a script.
    First,
    /// The first word is no command.
    Command,
    /// There are too many words, or too few.
    Words,
    /// A word has not its form.
    Value,
    /// A word names what is not there.
    Unknown,
    /// A word gives what is there already.
    Repeated,
    /// A limit is reached.
    Limit,
    /// The line can't be used in this state.
    Use,
    /// The script ends without its `end` line.
    End,
    /// The script is too long.
    Long,
}
