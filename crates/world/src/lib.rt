//! A space of nodes in one thread, without disks: a saved node is an image in memory. Each step is
//! one step of the definitions in `model`, over current states, saved states and the frames that
//! saved states released. So a list of steps is a run, and the theorems apply to what the space
//! then shows.
//!
//! `sim.rt` has the space. It leaves the work on one node to the node's `Site`, in `site.rt`: the
//! current node, the image of the one saved last (`saved.rt`), and the frames of its messages that
//! were released (`outbox.rt`, `packed.rt`).
#![tactic(auto)]

mod collecting;
mod headline;
mod outbox;
mod packed;
mod saved;
mod sim;
mod site;

pub use headline::laws;
pub use model::{Answer, Event, Letter, Outcome, Step};
pub use sim::Sim;
