//! The steps of a space of nodes, and their outcomes. A run is a new space after any list of steps.
use crate::event::{Answer, Event};

/// One step of a space of nodes in one thread.
#[derive(Drop)]
pub enum Step<'a> {
    /// An event of the node, which comes from no other node.
    Act(u8, Event<'a>),
    /// The node's current state becomes its saved one.
    Save(u8),
    /// The node's saved state becomes its current one.
    Restart(u8),
    /// The message of this number, if it was ever released, is given to its receiver.
    Deliver { from: u8, to: u8, number: u64 },
    /// The messages that the saved state of the node `to` has received from the node `from` are
    /// acknowledged to `from`.
    Hand { from: u8, to: u8 },
}

/// The outcome of a step that was not refused.
#[derive(Clone, Copy)]
pub enum Outcome {
    /// The node's answer.
    Answer(Answer),
    /// The node was saved or restarted.
    Done,
    /// The acknowledgement of this number was handed to the sender.
    Handed(u64),
    /// No such message was ever released.
    NoFrame,
}
