#![tactic(auto)]
//! A node's part in controlling the collection cycles, without the marking and sweeping themselves:
//! its [`Ring`] finds the end of marking, and its [`Phases`] say how far the node is.
//!
//! # The ring
//!
//! The nodes form a ring, round which a token travels: from node 0 to the last node, from each node
//! to the one before it, and so back to node 0. This is Safra's algorithm for detecting distributed
//! termination, as E. W. Dijkstra wrote it down in EWD998 (1987). A node is active while it has
//! grey objects. The messages that are counted are those that can make a node active again.
//!
//! The balances of all nodes sum to the number of counted messages in flight. While the token is at
//! node `t`, or in flight to it, one of these is true (`laws/proofs/Safra.antt`):
//!
//! ```text
//! node 0 -> node n-1 -> node n-2 -> .. -> node t -> .. -> node 1 -> node 0
//!           '-- the token went by ---'    it is here
//! ```
//!
//! - the nodes above `t` are calm, which means that they have joined the cycle and have no grey
//! objects, and their balances sum to the token's sum;
//!
//! - or the balances of the nodes up to `t` and the token's sum add up to more than 0: a message is
//! in flight, or reached a node above `t` after the token had left it;
//!
//! - or a node up to `t` is black, or hasn't joined the cycle;
//!
//! - or the token is black.
//!
//! At node 0 the last three are excluded by what it looks at: node 0 is white, the token is white,
//! and the token's sum and its own balance add up to 0. So the first is true: all nodes are calm,
//! and nothing is in flight. A receiver turns black because it got work, maybe after the token had
//! passed, and then the token's sum is out of date.
//!
//! # The phases
//!
//! They say which cycle a node has joined, whether it knows that marking has ended in it, and how
//! far it has swept.
//!
//! An object has only one number that says whether it is marked. Suppose that a node joined the
//! next cycle before it had swept this one. Its garbage would then be white, like the objects that
//! aren't marked yet, and would refer to objects that other nodes have freed. So a node joins only
//! after it has swept, and node 0 begins a cycle only after all nodes have reported that.

mod counting;
mod phases;
mod ring;
mod verdict;

pub use counting::balance_of;
pub use phases::Phases;
pub use ring::{NEW_TOKEN, Ring};
pub use verdict::Verdict;
