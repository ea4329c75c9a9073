//! The faults that stop a script, and the exit status of a run.

ghost use Rattle.std.specs.Prelude.{◌≡◌};
ghost use Rattle.sim.specs.Status.{sim_code, sim_status_of, fault_at};

use std::alloc::{AllocError, AllocFailed};
use thiserror::Error;

/// The fault that stops a script at a line.
#[derive(Clone, Copy, Debug, PartialEq, Eq)]
pub enum ScriptLineFault {
    /// The line is not in the language, or a number is too large for its place.
    Unreadable,
    /// The line names a PDU that has not been made yet.
    NoSuchLabel,
    /// An allocation failed.
    Memory,
    /// Standard output failed.
    Output,
}

impl ScriptLineFault {
    /// Returns the fault with the number of its line, from 1.
    pub fn at(self, line: u64) -> ScriptFault
        // A fault of the script keeps the number of the `line`; a failed allocation or output has no number
        // (`fault_at`).
        ensures { result ≡ fault_at self line }
    {
        match self {
            ScriptLineFault::Unreadable => ScriptFault::Unreadable(line),
            ScriptLineFault::NoSuchLabel => ScriptFault::NoSuchLabel(line),
            ScriptLineFault::Memory => ScriptFault::Memory,
            ScriptLineFault::Output => ScriptFault::Output,
        }
    }
}

impl From<AllocError> for ScriptLineFault {
    fn from(_error: AllocError) -> ScriptLineFault {
        ScriptLineFault::Memory
    }
}

impl<T: Drop> From<AllocFailed<T>> for ScriptLineFault {
    fn from(_error: AllocFailed<T>) -> ScriptLineFault {
        ScriptLineFault::Memory
    }
}

/// Why a run stopped; its text goes to standard error.
#[derive(Clone, Copy, Debug, PartialEq, Eq, Error)]
pub enum ScriptFault {
    /// See `ScriptLineFault::Unreadable`.
    #[error("line {0}: unreadable")]
    Unreadable(u64),
    /// See `ScriptLineFault::NoSuchLabel`.
    #[error("line {0}: no such label")]
    NoSuchLabel(u64),
    /// The script cannot be read, or is not a UTF-8 text.
    #[error("fault: file")]
    File,
    /// An allocation failed.
    #[error("fault: memory")]
    Memory,
    /// Standard output failed.
    #[error("fault: output")]
    Output,
}

impl ScriptFault {
    /// Returns the end of a run that this fault stops.
    pub fn status(self) -> SimStatus
        // A failed output ends the run as failed, any other fault as refused (`sim_status_of`).
        ensures { result ≡ sim_status_of self }
    {
        match self {
            ScriptFault::Output => SimStatus::Failed,
            _ => SimStatus::Refused,
        }
    }
}

/// How a run ended.
#[derive(Clone, Copy, Debug, PartialEq, Eq)]
pub enum SimStatus {
    /// The script ran to its end.
    Done,
    /// A fault of the script, or a failed allocation, stopped it.
    Refused,
    /// Standard output failed.
    Failed,
}

impl SimStatus {
    /// Returns the exit status of the program.
    pub fn code(self) -> u8
        // The status is 0 for done, 1 for refused and 3 for failed (`sim_code`).
        ensures { result ≡ sim_code self }
    {
        match self {
            SimStatus::Done => 0,
            SimStatus::Refused => 1,
            SimStatus::Failed => 3,
        }
    }
}
