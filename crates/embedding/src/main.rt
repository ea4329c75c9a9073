//! An example application: an interlocking that switches an output of a field element on and off, each for one
//! second, over UDP.
//!
//!     embedding SETTINGS SECONDS
//!
//! docs/rattle.md explains it.
#![tactic(auto)]

mod link;
mod switch;

use link::run;
use std::io::Write;
use std::process::ExitCode;

fn main(rt: HostRuntime) -> ExitCode {
    match run(&rt, &mut rt.stdout()) {
        Ok(()) => ExitCode::from(0),
        Err(why) => {
            let _ = writeln!(rt.stderr(), "{why}");
            ExitCode::from(1)
        }
    }
}
