//! How a folder keeps what is saved: in two files, its slots. Each holds a whole value and entries
//! behind it, which say what has changed since. One slot counts; the other one holds something
//! older, or what is being written.
//!
//! This crate calls no system and computes no checksum. It says to which place each save goes and
//! which slot counts ([`Slots`]), also while a rewrite makes a whole value beside ([`Rewrite`]),
//! and what an opening finds ([`Found`], [`choose`]). A host, in Rattle or by
//! `include/markring_slots.h`, writes and syncs what it is told to, in that order. It seals each
//! value and each entry with a checksum, and an entry's is made over the seal before it too.
//!
//! `specs/Decisions` and `specs/Openings` say what each decision is.
#![tactic(auto)]

mod headline;
mod opening;
mod rewrite;
mod saving;

pub use headline::laws;
pub use opening::{Choice, Found, choose, wholes_due};
pub use rewrite::{Copying, Rewrite};
pub use saving::{Mark, Slots, Target};
