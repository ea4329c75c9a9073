//! The subcommand `sim`: both ends in memory, driven by a script.

ghost use Rattle.std.specs.Prelude.{◌≢◌};

use rasta_words::Status;
use sim::SimStatus;
use std::alloc::Allocator;
use std::io::{Read, Write};

/// Runs `sim`: the script of a reader, on two ends that were never opened. Its lines go to `out`, a fault to
/// `err`.
///
/// It returns `Done` if the script ran to its end, `Refused` for a fault of the script or want of memory, and
/// `Failed` if `out` fails. What was printed before a fault stays printed.
pub fn run_sim<R: Read + Drop, O: Write, E: Write, A: Allocator + Copy>(
    alloc: A,
    reader: R,
    out: &mut O,
    err: &mut E,
) -> Status
    // `run_sim` never returns `WrongWords`.
    ensures words { result ≢ Status.WrongWords }
{
    match sim::run(alloc, reader, out, err) {
        SimStatus::Done => Status::Done,
        SimStatus::Refused => Status::Refused,
        SimStatus::Failed => Status::Failed,
    }
}
