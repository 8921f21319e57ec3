//! The events of a node since its last save, as bytes: a batch for a journal, which `disk_journal`
//! writes and `node_store` performs again.
#![tactic(auto)]

mod log;

pub use log::{GREATEST_LOG, Log};
