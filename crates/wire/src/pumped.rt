//! What was received from another node, and what was sent to one. An empty or a full mailbox is an
//! answer and not a refusal: nobody waits.
use model::Answer;

/// What was received from another node.
#[derive(Clone, Copy, Debug)]
pub enum Inbound {
    /// No message waited for its turn, and the mailbox wasn't full.
    Empty,
    /// The node was given the waiting message, or else the frame in the mailbox, and this is its
    /// answer.
    Event(Answer),
}

/// What was sent to another node.
#[derive(Clone, Copy, Debug)]
pub enum Outbound {
    /// A frame was put into the mailbox.
    Sent,
    /// The mailbox wasn't empty.
    Full,
}
