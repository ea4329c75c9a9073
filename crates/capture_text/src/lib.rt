//! The text that `rasta follow` prints of a recorded connection: a line for each datagram, or its events as JSON, then
//! the sums.
//!
//! Contracts about a text hold if the writing succeeds; contracts about counts and connections always hold. Only
//! tested are: that `run` hands all bytes to `follow_lines` and prints the sums after them, and how it reads the
//! blocks of a recording. std does not say what the reader under a `Take` holds afterwards.
#![tactic(auto)]

mod advice;
mod advice_json;
mod capture_run;
mod choice;
mod course;
mod dates;
mod distributions;
mod events;
mod frames;
mod json;
mod line_reader;
mod pieces;
mod reasons;
mod record;
mod remarks;
mod sentence;
mod settings_rule;
mod skips;
mod summary;
mod table;
mod table_json;
mod telegrams;

pub use capture_run::{
    FollowStatus, ForeignForm, Stop, foreign, is_whole, name_of_file_fault, name_of_foreign,
    read_whole, run, status_after, stop_at_output,
};
pub use choice::{Remarkable, is_wanted};
pub use course::{CaptureReading, FollowOptions, OutputForm, write_fault};
pub use events::write_events;
pub use frames::{FrameFault, write_frame_fault};
pub use json::write_json;
pub use pieces::{Clock, TimeForm, write_address, write_duration};
pub use record::write_record;
pub use remarks::write_remarks;
pub use skips::SkipCounts;
pub use summary::{CaptureCounts, Scale, write_summary};
pub use telegrams::write_telegrams;
