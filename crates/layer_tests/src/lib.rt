//! What is shown of the digest, the redundancy layer, the PDUs, the safety layer and the session by examples.
//!
//! A crate of its own, since a crate with tests is proved once more with them.
#![tactic(auto)]

#[cfg(test)]
mod assertions;
#[cfg(test)]
mod md4_tests;
#[cfg(test)]
mod packing_tests;
#[cfg(test)]
mod pdi_session_tests;
#[cfg(test)]
mod red_layer_tests;
#[cfg(test)]
mod retrans_tests;
#[cfg(test)]
mod safe_machine_tests;
#[cfg(test)]
mod safe_pdu_tests;
