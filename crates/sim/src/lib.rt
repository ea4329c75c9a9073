//! The script language of `rasta sim`: lines of text that open two ends in memory, put telegrams, set clocks, and
//! deliver, damage or lose the datagrams of the ends. What the ends do is printed.
//!
//! docs/sim.md is the page for authors of scripts. Reading a line and running a script have no contracts: worked
//! scripts (`tests/scripts`, `examples`) and an independent model test them.
#![tactic(auto)]

mod fault;
mod label;
mod labels;
mod line;
mod made_pdus;
mod script;
mod settings;
mod sides;
mod trace;
mod words;

pub use fault::{ScriptFault, ScriptLineFault, SimStatus};
pub use label::Label;
pub use labels::Labels;
pub use line::{Command, ZEROS_MAX, read_line};
pub use script::run;
pub use settings::{Key, ScriptSettings, Setting};
pub use sides::{Sides, other};
