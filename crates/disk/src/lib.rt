//! Disks of three areas in which a crash may tear writes: in memory, and in files; what is kept in
//! the areas, and how it survives a crash, is in the crates `disk_shelf` and `disk_journal`.
//!
//! Ghost members of [`Disk`] say what a disk does: what a read gives, what a crash now may leave,
//! and what a crash at any moment since an earlier one may have left.
#![tactic(auto)]

mod account;
mod device;
mod file;
mod memory;
mod plan;
mod state;
mod undo;

pub use device::{Area, Disk, DiskFault};
pub use file::FileDisk;
pub use memory::{MemoryDisk, OverMemory};
pub use plan::Plan;
