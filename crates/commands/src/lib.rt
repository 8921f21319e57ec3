//! What the program `markring` does on one thread, with no disk: it runs scripts on a space, and
//! prints frames that words spell. The output is exactly what the definitions answer. The contracts
//! state that for every writer whose contents are known.
#![tactic(auto)]

mod bytes;
mod decoding;
mod freed;
mod output;
mod reading;
mod simulation;
mod splitting;
mod streams;

pub use bytes::{Writing, bytes_spelled, text_of_bytes};
pub use decoding::decode;
pub use output::{Lost, print_refusal, print_unread};
pub use reading::{Unread, read_file, read_text};
pub use simulation::sim;
pub use splitting::next_line;
pub use streams::{run_decode, run_script};
