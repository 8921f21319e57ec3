//! Events as bytes, one after another: what a log of a node's events holds; the log is in the crate
//! `node_log`, and what performs its events again in `node_store`.
//!
//! Each event is a tag in one byte and what the event says; numbers are big-endian. A message and
//! an acknowledgement are spelled as their frames are. docs/FORMATS.md has the table ("Events").
#![tactic(auto)]

mod reading;
mod tags;
mod writing;

pub use reading::{read_event, spellings};
pub use writing::{add_event, encode_letter, letter_of, tail};
