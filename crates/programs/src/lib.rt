//! What a node decides about its programs: which process speaks for a program, which of its
//! requests is performed, and which answer may leave. A host asks these functions, in Rattle or by
//! `include/markring_programs.h`. It keeps each [`Program`] with its node, saves both together, and
//! counts in [`Images`] what it saves.
//!
//! `specs/Decisions` and `specs/Images` say what each decision is. `specs/Runs` says what can
//! happen to a program: packets in any order and any number of times, saves that succeed, fail or
//! never end, crashes, the operator. `specs/Laws` has the theorems on each such run: requests are
//! performed once, in order, and no crash takes an answer back. [`laws`] states them.
#![tactic(auto)]

mod headline;
mod images;
mod program;

pub use headline::laws;
pub use images::{Images, NEVER};
pub use program::{FORGOTTEN, Opening, Program, Request};
