//! The two balances of messages that a node keeps. Messages that have to arrive before marking ends
//! are counted apart from those that the next cycle has to wait for.
/// One of the two balances of messages that a node keeps: those that it sent less those that it
/// received.
#[derive(Clone, Copy)]
pub enum Balance {
    /// Messages that have to arrive before marking may end in the node's cycle.
    Earlier,
    /// Messages with references from the node's cycle. They count in the next cycle.
    Recent,
}
