//! A node at its seat on a wire, with the disk that it is saved on, but without a thread. Each call
//! is at most one event of the space. So what the threads of all nodes do with their cells is one
//! run of the space, and every theorem about runs applies to it.
//!
//! ```text
//! call       what enters the history
//! act        the node's event, if it is answered; reading a word is not an event
//! pump_in    the delivery, if a message is received
//! save       the save
//! pump_out   nothing
//! reopen     a restart; after a save in which the disk failed, that save if the disk has it
//! raise      nothing
//! bytes      nothing
//! ```
//!
//! These hold between any two calls (`IsSound` in `specs/Cells.antt`, ensured by [`Cell::node`]):
//!
//! - The node shows the state that the seat's events lead to. What it counts as released and
//! acknowledged is what the last saved state holds.
//!
//! - While the cell is open, its disk opens to a node that shows the last saved state, even after a
//! crash. If [`Cell::unsaved`] is false, that is also the current state.
//!
//! - A save in which the disk fails closes the cell, and so does a failed reopening. The disk then
//! opens to the last saved state or to the current one. Every call that acts, reads bytes or moves
//! a frame fails with `Closed` until a reopening succeeds. A reopening never fails with `BadImage`.
//!
//! - Each message that the node keeps until its turn is one whose frame the seat took. No save
//! holds it, and a reopening loses it.
//!
//! A mailbox keeps order, yet a message can be early: its receiver restarted or refused a message,
//! or an acknowledgement arrived in the middle of a window, whose places are counted from the last
//! message acknowledged. [`Cell::pump_out`] then goes through the window once more and delivers
//! what is missing. So nothing leaves a node unless its saved state holds it, and no restart takes
//! back what another node was told.
#![tactic(auto)]

mod call;
mod cell;
mod desk;
mod disks;
mod entering;
mod fault;
mod finding;
mod headline;
mod joining;
mod learning;
mod moments;
mod performing;
mod sending;
mod shared;
mod trace;
mod tracing;

pub use call::{Call, CallOutcome};
pub use cell::Cell;
pub use fault::Unopened;
pub use finding::find;
pub use headline::{laws, laws_at_once};
pub use joining::{join, open};
pub use moments::survey;
pub use shared::{Naming, Reopened, Shared, SharedOn, Shut, Unnamed};
pub use trace::{Trace, TraceLine};
