//! The wire, which has no nodes: mailboxes between the threads of a space's nodes, the count of its
//! events, and a board on which node 0 shows the last ended cycle. One rule over all of it holds
//! between any two atomic steps of any threads. It implies that what the threads do is one list of
//! events of the space (docs/WIRE.md).
//!
//! A wire is a table of slots and of words, each of which changes only in single atomic steps.
//! Between `n` nodes it has `n * n` mailboxes, each a word and a slot. The mailbox from node `i` to
//! node `j` has the number `i * n + j`. The count and the board follow the mailboxes.
//!
//! ```text
//! word   the mailbox        its slot is with     call    step
//! 0      is empty           the table            claim   0 to 3, by the sender
//! 3      is being filled    the sender's seat    post    3 to 1
//! 1      is full            the table            take    1 to 2, by the receiver
//! 2      is being emptied   the receiver's seat  clear   2 to 0
//!
//! tick   adds 1 to the count        one event of the seat's node
//! raise  sets board to the greater  a cycle that node 0's saved state counts as ended
//! look   reads the board            the greater of what is read and what the watch heard
//! note   reads a word               changes nothing
//! learn  reads two words            a list of events, for proofs only
//! ```
//!
//! A node's calls are made of these: `send` claims and posts the frame that is due, `receive` takes
//! and clears, and `enter` ticks if the node's answer is that of an event. [`survey`] lets several
//! seats note and learn. [`first_apart`] says which nodes can't share a wire.
//!
//! The slots that a seat holds have an order, and only the first one can be written or returned.
//! The seat keeps their numbers in the same order. `post` and `clear` first bring their slot to the
//! front, which is not a step on a word.
#![tactic(auto)]

mod board;
mod dealing;
mod entering;
mod fitting;
mod history;
mod learning;
mod mailboxes;
mod plays;
mod pumped;
mod seats;
mod sending;
mod surveying;
mod truth;
mod views;

pub use fitting::first_apart;
pub use pumped::{Inbound, Outbound};
pub use seats::{Claim, NodeSeat, Note, Raised, Taken, Watch, Wire};
pub use sending::due;
pub use surveying::{Learner, survey};
pub use truth::laws;
