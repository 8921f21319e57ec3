//! A node with its disk, its seat and a trace. The type's invariant connects them: each event
//! entered the one history of the space, and while the cell is open, its disk opens to the last
//! saved node.
ghost use Rattle.std.specs.Prelude.{◌≡◌, false, IsTrue};
ghost use Rattle.disk.specs.Areas.{Areas};
ghost use Rattle.image.specs.Nodes.{HasImage};
ghost use Rattle.wire.specs.Readers.{known};
ghost use Rattle.cell.specs.Desks.{HasDropped};
ghost use Rattle.cell.specs.Disks.{HoldsSaved, OpensToEither};
ghost use Rattle.node_store.specs.Stores.{disk_of, is_ready_in, logs_in};

mod acting;
mod learning;
mod pumping;
mod reading;
mod saving;

use crate::Trace;
use crate::desk::Desk;
use disk::Disk;
use node::Core;
use node_store::Store;
use std::alloc::Global;
use std::marker::Model;
use std::snapshot::Snapshot;

/// A node at its seat on a wire, the store that it is saved in, and a trace of its last calls.
///
/// The node shows the state that the seat's events lead to; what it counts as saved is what the
/// last saved node holds. While the cell is open, its disk opens to a node that shows the last
/// saved state, even after a crash.
///
/// A save that fails with `Disk` closes the cell, and so does a failed reopening. The disk then
/// opens to a node that shows either the last saved state or the current one, even after a crash. A
/// closed cell refuses every event, save and frame, and to read bytes, with `Closed` until a
/// reopening succeeds.
///
/// Every event enters the history of the space once: an event of the node's own, a message that is
/// received, a save, a reopening. A refused call enters nothing; neither do reading a word or
/// bytes, a repeat, an early message, an acknowledgement or moving a frame.
///
/// Each message that the node keeps until its turn is one that the seat took from the wire. No save
/// holds it, and a reopening loses it.
pub struct Cell<D: Disk> {
    alloc: Global,
    desk: Desk,
    store: Store<D>,
    trace: Trace,
    // The node with which the cell was made.
    origin: Snapshot<Core>,
    ghost dropped: { HasDropped origin.value (known desk.seat) desk.node.core },
    ghost saved_dropped: { HasDropped origin.value (known desk.seat) desk.saved },
    ghost while_open: { IsTrue (is_ready_in store)
        → HoldsSaved (D.may_leave (disk_of store)) desk.saved },
    ghost left: { (c : Areas) → D.may_leave (disk_of store) c
        → ∥ OpensToEither desk.saved desk.node.core c ∥₁ },
    ghost imaged: { logs_in store ≡ false → ∥ HasImage desk.saved ∥₁ },
}

// Written out, so that the crates above need not prove again how each field is dropped.
impl<D: Disk + Drop> Drop for Cell<D> {
    fn drop(self) {
        let Cell {
            alloc: _,
            desk: _,
            store: _,
            trace: _,
            origin: _,
        } = self;
    }
}

impl<D: Disk> Model for Cell<D> {
    ghost use Rattle.cell.specs.Cells.{CellView};
    ghost use Rattle.node_store.specs.Stores.{disk_of, is_ready_in, logs_in};

    ghost Value = { CellView D };

    ghost view = { λ c. record {
      node = c.desk.node;
      saved = c.desk.saved;
      origin = c.origin.value;
      seat = c.desk.seat;
      places = c.desk.places;
      unsaved = c.desk.unsaved;
      disk = disk_of c.store;
      is_open = is_ready_in c.store;
      logs = logs_in c.store;
      trace = c.trace;
    } };
}
