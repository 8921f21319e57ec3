//! What crosses to C by value: answers, events, objects, numbers of nodes, why a call did nothing,
//! and how results are written to the places that C gave; what C holds by a pointer is in
//! `c_handles`.
//!
//! It is below the crates of nodes, and is proved beside them.
#![tactic(auto)]

mod bytes;
mod fault;
mod fields;
mod results;

pub use bytes::put;
pub use fault::{Fault, OK};
pub use fields::{
    CAnswer, CEvent, CFreed, CLink, CObject, CRef, CShape, CState, CWork, age_number,
};
pub use results::{answered, flagged, status, written};
