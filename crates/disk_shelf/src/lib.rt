//! How a disk holds one value: as an image, and as batches of what happened since, if a log follows
//! the image. The store that keeps a value so is in the crate `disk_journal`.
//!
//! [`Persist`] says how values become bytes. [`log`] has the calls that write images and batches,
//! [`check_seals`] compares what a disk holds with its seals.
#![tactic(auto)]

mod held;
pub mod log;
mod persist;
mod save;
mod seal;

pub use held::{disk_of_image, is_blank, recall_image, spelled};
pub use persist::{GREATEST_SAVED, HEAD, Persist};
pub use save::{image_in, record};
pub use seal::{DIGEST, check_seals, first_digest, log_sealed, next_digest, sealed};
