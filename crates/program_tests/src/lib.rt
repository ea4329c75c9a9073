//! What is shown of the program's words by examples: their forms, outputs that fail, and memory that is not found.
//!
//! A crate of its own, since a crate with tests is proved once more with them.
#![tactic(auto)]

#[cfg(test)]
mod assertions;
#[cfg(test)]
mod counts_tests;
#[cfg(test)]
mod poor;
#[cfg(test)]
mod rasta_net_tests;
#[cfg(test)]
mod rasta_run_tests;
#[cfg(test)]
mod rasta_words_tests;
