//! The program `rasta`.
#![tactic(auto)]

use rasta_run::run_words;
use std::process::ExitCode;

fn main(rt: HostRuntime) -> ExitCode {
    ExitCode::from(run_words(&rt, &rt, &mut rt.stdout(), &mut rt.stderr()).code())
}
