//! A space whose nodes run in threads: how it is opened from its disks, started and closed, and no
//! rule of a node or a cell. What is proved of a cell holds whoever calls it, so no theorem depends
//! on this crate.
#![tactic(auto)]

mod cells;
mod closing;
mod config;
mod fault;
mod reviving;
mod serving;
mod space;
mod team;

pub use closing::{CloseFault, Closed, Unclosed};
pub use config::Config;
pub use fault::OpenFault;
pub use reviving::Unrevived;
pub use serving::{Program, Served};
pub use space::{AllEnded, LastLook, Opened, Space, SpaceOn};
pub use team::{Team, TeamPlan};
