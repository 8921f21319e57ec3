//! The turns of a worker: what a thread does for its node, over and over, by calls that `cell` has.
//! A turn makes the same calls in the same order, whatever they return:
//!
//! ```text
//! gate: Start
//! pump_in from each other node, ascending    one message or frame each, if there is one
//! gate: TakenIn
//! scan, until one fails, at most 8 times
//! pass
//! sweep 64 slots
//! reclaim the young or all, if there was nothing to sweep, and there are many new objects
//! gate: Collected
//! save, if something is unsaved
//! gate: Saved
//! pump_out to each other node, ascending     one frame each, if there is room
//! raise, at node 0 only
//! gate: Sent
//! ```
//!
//! Each line except those of the gate is one or more calls of the station, and programs may act on
//! the node between any two calls. No lock is held while the gate is asked: it may wait, call the
//! space, or end the worker at that point. [`turn_node`] guarantees that a turn makes exactly these
//! calls, but not what each of them did.
//!
//! A worker that ends and is started again loses nothing that others count on. What its node had
//! sent was saved before it left. What it had received without saving it, it hasn't acknowledged,
//! so its sender sends it again.
#![tactic(auto)]

mod calls;
mod gate;
mod pace;
mod run;
mod station;
mod steps;
mod stop;
mod turn;

pub use calls::{CallsMade, WorkerCall};
pub use gate::{Gate, Point, Stage};
pub use pace::{Pace, Reclaims};
pub use run::{Report, Run, Turns, run_node};
pub use station::{Look, Station};
pub use stop::{Asked, Counted, Ended, Stop};
pub use turn::{Turn, turn_node};
