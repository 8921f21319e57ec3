//! A store of one value on a disk, as an image and a log of what happened since, so that a save
//! costs what changed; the calls of the disk are in the crate `disk_shelf` ([`disk_shelf::log`]). A
//! crash at any moment leaves the old value or the new one.
//!
//! `journal.rt` has all of it: what a save writes, what an opening reads, and which batches go
//! behind the log.
#![tactic(auto)]

mod journal;

pub use journal::{Journal, Tail, opens_once, read_logged, restores_once};
