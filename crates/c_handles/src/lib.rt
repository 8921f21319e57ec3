//! What C holds: nodes, spaces, cells and watches, each as one pointer, with a method for every
//! call of the C library; the functions that C calls are in the crate `markring_c`, and what
//! crosses by value in `c_values`.
//!
//! ```text
//! C               exports           here          below
//! markring_node   markring_node_*   NodeHandle    LoneNode: node_store::LoggedNode, a limit, marks
//! markring_space  markring_space_*  SpaceHandle   SeatedSpace: images, then cells and watches
//! markring_cell   markring_cell_*   CellHandle    SeatedCell: cell::Cell, its wire, a mark
//! markring_watch  markring_watch_*  WatchHandle   SeatedWatch: wire::Watch, its wire
//! ```
//!
//! A method takes the box out of its handle, calls it, and puts it back; of an empty handle it
//! fails with [`Fault::NoHandle`]. So only `swap` of each handle deals with a pointer.
//!
//! A cell is on a disk in memory, and its caller stores the images.
#![tactic(auto)]

mod cell_handle;
mod collecting;
mod gone;
mod headline;
mod held;
mod letters;
mod lone;
mod nodes;
mod objects;
mod opening;
mod packing;
mod seated;
mod space;
mod space_handle;
mod watch_handle;
mod watching;
mod working;

use c_values::Fault;
pub use cell_handle::CellHandle;
pub use collecting::collect;
pub use headline::laws;
pub use lone::LoneNode;
pub use lone::reopening::stored_once;
pub use nodes::NodeHandle;
pub use seated::SeatedCell;
pub use space::SeatedSpace;
pub use space_handle::SpaceHandle;
pub use watch_handle::WatchHandle;
pub use watching::SeatedWatch;

/// The mark of an image or a batch, by which its caller says that it is stored; or why nothing was
/// made.
pub type Marked = Result<u64, Fault>;
