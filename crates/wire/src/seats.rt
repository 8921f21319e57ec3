//! What threads hold of a wire: seats, watches, and mailboxes that they are filling or emptying.
//! Such a mailbox can't be dropped, so none stays locked by mistake.
ghost use Rattle.std.specs.Prelude.{◌≡◌, ◌+◌, ◌*◌, ◌≤◌, [], length, vec_capacity};
ghost use Rattle.ids.specs.declared.limits.TheConstants.{GREATEST_NODES};
ghost use Rattle.wire.specs.Plays.{IsSupplied, WasEnded};
ghost use Rattle.wire.specs.Rule.{nodes_of};
ghost use Rattle.wire.specs.Seated.{Sits, IsWatching};

use crate::plays::WireRule;
use crate::views::{Opening, View};
use atomic_table::{Seat, Table};
use ids::Cycle;
use std::alloc::Global;
use std::snapshot::Snapshot;

/// What the threads of a space's nodes share: a mailbox from each node to each other one, the count
/// of the events of all nodes, and a board with the last cycle that node 0 showed as ended. Every
/// call except [`new`](Wire::new) is on `&self` and allocates nothing, and no call waits.
pub struct Wire {
    // The mailboxes, then the count, then the board.
    pub(crate) table: Table<Vec<u8>, View, Opening, WireRule, Global>,
    pub(crate) nodes: usize,
    pub(crate) alloc: Global,
    ghost words: { table.shared.table_id.words ≡ nodes * nodes + 2 },
    ghost slots: { table.shared.table_id.slots ≡ nodes * nodes },
    ghost opening: { nodes_of table.shared.key.world ≡ nodes },
    ghost few: { nodes ≤ GREATEST_NODES },
}

// Written out, so that the crates above need not prove again how each field is dropped.
impl Drop for Wire {
    fn drop(self) {
        let Wire {
            table: _,
            nodes: _,
            alloc: _,
        } = self;
    }
}

/// The right of one node to act on a wire: to send and receive its frames, and to enter its events.
/// A node has exactly one.
pub struct NodeSeat {
    pub(crate) seat: Seat<Vec<u8>, View>,
    pub(crate) node: usize,
    pub(crate) nodes: usize,
    // The mailboxes that it is filling or emptying, in the order of the slots that the seat holds.
    // It has room for all of them: one to each node, and one from each.
    pub(crate) held: Vec<usize>,
    ghost sits: { Sits (λ v. v.items) node nodes held.items seat.me },
    ghost supplied: { IsSupplied seat.me.0 },
    ghost room: { 2 * nodes ≤ vec_capacity held },
}

// Written out, so that the crates above need not prove again how each field is dropped.
impl Drop for NodeSeat {
    fn drop(self) {
        let NodeSeat {
            seat: _,
            node: _,
            nodes: _,
            held: _,
        } = self;
    }
}

/// A read-only view of a wire's board, with the cycles that were seen there and heard of. Node 0's
/// saved state had counted all of them as ended.
pub struct Watch {
    pub(crate) seat: Seat<Vec<u8>, View>,
    pub(crate) heard: Cycle,
    ghost watches: { IsWatching seat.me.0.role },
    ghost loaded: { WasEnded seat.me.0.opening seat.me.0.number },
    ghost told: { WasEnded seat.me.0.opening heard.number },
}

// Written out, so that the crates above need not prove again how each field is dropped.
impl Drop for Watch {
    fn drop(self) {
        let Watch { seat: _, heard: _ } = self;
    }
}

/// A mailbox that the holder's seat has claimed, to be filled by [`Wire::post`]. It can't be
/// dropped.
pub struct Claim {
    pub(crate) to: u8,
    pub(crate) of: Snapshot<Seat<Vec<u8>, View>>,
}

/// A mailbox whose frame the holder's seat has taken, to be emptied by [`Wire::clear`]. It can't be
/// dropped.
pub struct Taken {
    pub(crate) from: u8,
    pub(crate) of: Snapshot<Seat<Vec<u8>, View>>,
}

/// A beginning of the history of a wire's events, which a seat had learned, for another seat to
/// learn; see [`Wire::learn`]. It has no bytes, and can't be dropped.
pub struct Note {
    pub(crate) seat: Seat<Vec<u8>, View>,
    ghost empty: { seat.me.1 ≡ [] },
}

/// A cycle that was raised on a wire's board, for a [`Watch`] to hear of. Node 0's saved state had
/// counted it as ended.
#[derive(Drop)]
pub struct Raised {
    pub(crate) cycle: Cycle,
    pub(crate) of: Snapshot<Seat<Vec<u8>, View>>,
    ghost ended: { WasEnded of.value.me.0.opening cycle.number },
}
