//! Nodes on disks, and events that are noted for the next save; how a disk keeps a value is in the
//! crates `disk_shelf` and `disk_journal`, and the bytes are in `image` and `event_bytes`.
//!
//! A [`Store`] keeps a node in a journal: the image alone, or the image and what happened since.
//! A [`LoggedNode`] notes the events since the last save in its [`Log`]. [`Store::save`] adds them
//! to the journal as a batch, or writes the image if the log was lost. Opening the journal performs
//! the batches again: the node is then the one that was saved.
#![tactic(auto)]

mod images;
mod logged;
mod redoing;
mod store;

pub use images::Images;
pub use logged::{LoggedNode, is_turn};
pub use node_log::{GREATEST_LOG, Log};
pub use store::{Store, read_node};
