//! What the C library exports: for each function of `include/markring.h` one that calls the method
//! of its handle (or `collect`, for several) and writes what it returns to the places that C
//! passed. What the methods do is in the crate `c_handles`. `program_calls.rt`, `line_calls.rt`,
//! `sending_calls.rt`, `packet_calls.rt` and `slot_calls.rt` have the functions of
//! `include/markring_programs.h`, `markring_lineage.h`, `markring_sending.h`, `markring_packets.h`
//! and `markring_slots.h`. No export has a `requires`; what a C caller owes is at the heads of the
//! headers.
//!
//! A `Global` takes no bytes, so C passes nothing for it.
#![tactic(auto)]

mod cell_events;
mod cells;
mod freed;
mod letters;
mod line_calls;
mod node_events;
mod nodes;
mod objects;
mod packet_calls;
mod program_calls;
mod sending_calls;
mod slot_calls;
mod space;
