//! The exit status of the program `rasta`, and the faults that it prints on standard error.

ghost use Rattle.std.specs.Prelude.{◌≡◌};
ghost use Rattle.rasta_words.specs.Status.{status_code, status_of};

use std::io::Write;
use thiserror::Error;

/// How the program ends.
#[derive(Clone, Copy, Debug, PartialEq, Eq)]
pub enum Status {
    /// Everything was done, and no fault was found.
    Done,
    /// The input was refused or has a fault, or an allocation failed.
    Refused,
    /// The words are not a command.
    WrongWords,
    /// A socket could not be opened, or the clock or an output failed.
    Failed,
    /// An end is not in the expected state.
    Unexpected,
    /// Standard input has ended, and a telegram was not put or not confirmed.
    Unfinished,
    /// Nobody read standard output, and lines were not printed.
    Unread,
}

impl Status {
    /// Returns the exit status.
    pub fn code(self) -> u8
        // `code` returns 0 for `Done`, 1 for `Refused`, 2 for `WrongWords`, 3 for `Failed`, 4 for `Unexpected`, 5
        // for `Unfinished` and 6 for `Unread`.
        ensures { result ≡ status_code self }
    {
        match self {
            Status::Done => 0,
            Status::Refused => 1,
            Status::WrongWords => 2,
            Status::Failed => 3,
            Status::Unexpected => 4,
            Status::Unfinished => 5,
            Status::Unread => 6,
        }
    }
}

/// What goes to the log, on standard error.
#[derive(Clone, Copy, Debug, PartialEq, Eq)]
pub enum LogLevel {
    /// Nothing.
    Off,
    /// Changes of state, and why an end stopped.
    State,
    /// Each dropped datagram, too.
    All,
}

/// The times of log lines.
#[derive(Clone, Copy, Debug, PartialEq, Eq)]
pub enum LogTime {
    /// The date and time of UTC, to milliseconds.
    Utc,
    /// The milliseconds since the start of the run.
    Run,
}

/// How long ends run.
#[derive(Clone, Copy, Debug, PartialEq, Eq)]
pub enum RunLength {
    /// For this many turns.
    Turns(u32),
    /// Until standard input ends.
    UntilEnd,
}

/// The state that is expected of ends after their turns.
#[derive(Clone, Copy, Debug, PartialEq, Eq)]
pub enum ExpectedState {
    /// The session is established. The state of the connection is not asked: it changes with each retransmission,
    /// the phase of the session does not.
    Up,
    /// The session is established, and everything that was to be put is put and confirmed.
    Settled,
}

/// The form in which counts are printed on standard error.
#[derive(Clone, Copy, Debug, PartialEq, Eq)]
pub enum CountsForm {
    /// In words.
    Text,
    /// As JSON.
    Json,
    /// In the text format of Prometheus.
    Prometheus,
}

/// How and when counts are printed: at the end of a run, and before.
#[derive(Clone, Copy, Debug, PartialEq, Eq)]
pub struct CountsRequest {
    /// Their form.
    pub form: CountsForm,
    /// The seconds between two times before the end; `None` if they are printed only at the end.
    pub every: Option<u32>,
}

/// A fault that the program prints on standard error, in one line. Details follow in lines of their own.
#[derive(Clone, Copy, Debug, PartialEq, Eq, Error)]
pub enum Fault {
    /// A text that should be hex digits is not.
    #[error("fault: hex")]
    Hex,
    /// A file cannot be read, or is not UTF-8 text.
    #[error("fault: file")]
    File,
    /// A file is not a valid settings file, or one of its texts is not an address.
    #[error("fault: settings")]
    Settings,
    /// An allocation failed.
    #[error("fault: memory")]
    Memory,
    /// The system gives no socket at an address.
    #[error("fault: network")]
    Network,
    /// The clock gives no time, or one above 2^62 milliseconds.
    #[error("fault: clock")]
    Clock,
    /// Standard output failed.
    #[error("fault: output")]
    Output,
}

impl Fault {
    /// Returns how the program ends with this fault.
    pub fn status(self) -> Status
        // `status` returns `Refused` for a fault of hex digits, a file, settings or memory, and `Failed` for one
        // of the network, the clock or an output.
        ensures { result ≡ status_of self }
    {
        match self {
            Fault::Hex | Fault::File | Fault::Settings | Fault::Memory => Status::Refused,
            Fault::Network | Fault::Clock | Fault::Output => Status::Failed,
        }
    }
}

/// Prints a fault on standard error, and returns how the program ends. If that output fails too, only the exit
/// status is left: a fault's own output is not waited for.
pub fn report<E: Write>(err: &mut E, fault: Fault) -> Status
    // `report` returns `Refused` for a fault of hex digits, a file, settings or memory, and else `Failed`, whether
    // or not its output succeeds.
    ensures { result ≡ status_of fault }
{
    let _ = writeln!(err, "{fault}");
    fault.status()
}
