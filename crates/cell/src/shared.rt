//! A cell that the threads of a program share. Each call locks the cell for its own duration, so
//! what holds of a cell between two calls holds whenever the lock is free.
ghost use Rattle.std.specs.Prelude.{
  ◌≡◌,
  ◌≢◌,
  ◌↔◌,
  ◌⊎◌,
  false,
  length,
  slice_index_or,
  true,
  IfErr,
  IfOk,
  IsErrOf,
  IsTrue,
  OnErr,
  OnOk,
};
ghost use Rattle.std.specs.Arc.{arc_value};
ghost use Rattle.ids.specs.declared.refusal.Refusal.TheVariants as refusal;
ghost use Rattle.disk.specs.Crashes.{Grew};
ghost use Rattle.image.specs.Images.{IsTooLarge};
ghost use Rattle.model.specs.Steps.{is_own};
ghost use Rattle.model.specs.View.{is_other, kept_view};
ghost use Rattle.wire.specs.Readers.{known, outbox, IsSeatOf};
ghost use Rattle.wire.specs.Rule.{nodes_of};
ghost use Rattle.wire.specs.Sending.{frame_due, IsSent};
ghost use Rattle.cell.specs.Closing.{HasBegun};
ghost use Rattle.cell.specs.Events.{saved_by};
ghost use Rattle.cell.specs.Cells.{desk_of};
ghost use Rattle.cell.specs.Locked.{WasAnswered};
ghost use Rattle.cell.specs.Pumping.{is_out, PumpedIn};
ghost use Rattle.cell.specs.Reading.{node_bytes, node_letter_part, Fills, WasCopied, WasFilled, WasMeasured, WasTold};
ghost use Rattle.cell.specs.Names.{name_of, raised_on, seat_name, IsNamed};

use crate::cell::Cell;
use crate::desk::Desk;
use disk::Disk;
use ids::Refusal;
use model::{Accepted, Answer, Event};
use std::alloc::Global;
use std::marker::{Brand, PhantomData};
use std::snapshot::Snapshot;
use std::sync::{Arc, Mutex, Wait};
use wire::{Inbound, Outbound, Raised, Wire};
use workers::{Look, Station};

/// Names a wire in proofs, so that a watch of the same wire can use what was raised through a
/// shared cell, and so that cells which are given back are known to be of one wire.
pub trait Naming {
    ghost use Rattle.std.specs.Prelude.{Bool, Option};
    ghost use Rattle.cell.specs.Names.{Name};

    ghost wire: { Option Name };

    /// If it is true, the node with which each cell was made had dropped only messages that were
    /// acknowledged when the wire was made.
    ghost begun: { Bool };
}

/// Names no wire.
pub struct Unnamed;

impl Naming for Unnamed {
    ghost use Rattle.std.specs.Prelude.{None, false};

    ghost wire = { None };

    ghost begun = { false };
}

impl Naming for Brand {
    ghost use Rattle.std.specs.Prelude.{None, false};

    ghost wire = { None };

    ghost begun = { false };
}

/// Shows that a shared cell was reopened. Only [`SharedOn::reopen`] makes one.
#[derive(Clone, Copy, Debug)]
pub struct Reopened {
    _found: (),
}

/// Why a shared cell wasn't reopened, which left it closed. Only [`SharedOn::reopen`] makes one.
#[derive(Clone, Copy, Debug)]
pub struct Shut {
    refusal: Refusal,
}

impl Shut {
    /// The refusal of the reopening.
    pub fn refusal(&self) -> Refusal
        ensures { result ≡ self.now.refusal }
    {
        self.refusal
    }
}

// A cell and its wire.
#[derive(Drop)]
struct Held<D: Disk, W: Naming> {
    cell: Cell<D>,
    wire: Arc<Wire, Global>,
    name: PhantomData<W>,
    ghost sits: { IsSeatOf (arc_value wire) cell.seat },
    ghost named: { IsNamed W.wire (seat_name cell.seat) },
    ghost begun: { IsTrue W.begun → HasBegun cell },
}

/// A cell that threads share, with its wire. Each call locks the cell for its own duration. Between
/// two calls, all that the cell guarantees about its node, seat and disk holds, and the seat
/// belongs to the wire. No clause says what a call did to the cell, because another thread's call
/// may follow before the caller looks. But a proof knows the node and the seat with which it was
/// made.
pub struct SharedOn<D: Disk, W: Naming> {
    held: Mutex<Held<D, W>>,
    // The node and the seat of the cell as they were when it was put behind the lock.
    first: Snapshot<Desk>,
}

// Written out, so that the crates above need not prove again how each field is dropped.
impl<D: Disk + Drop, W: Naming> Drop for SharedOn<D, W> {
    fn drop(self) {
        let SharedOn { held: _, first: _ } = self;
    }
}

/// A shared cell whose wire has no name in proofs.
pub type Shared<D> = SharedOn<D, Unnamed>;

impl<D: Disk, W: Naming> Held<D, W> {
    fn reopen(&mut self) -> Result<Reopened, Shut>
        ensures others { IfErr result (λ s. (s.refusal ≡ refusal.Memory)
            ⊎ (s.refusal ≡ refusal.Disk)) }
        ensures ready { OnOk result (self.new.cell.is_open ≡ true) }
        ensures shut { OnErr result (self.new.cell.is_open ≡ false) }
    {
        let Held { cell, wire, .. } = self;
        match cell.reopen(wire) {
            Ok(()) => Ok(Reopened { _found: () }),
            Err(refusal) => Err(Shut { refusal }),
        }
    }

    // As `Cell::save` does, in both directions: `Ok` is a save, and a refusal has its cause.
    #[inline(always)]
    fn save(&mut self) -> Result<(), Refusal>
        ensures done { OnOk result (self.new.cell.saved ≡ kept_view self.old.cell.node.core) }
        ensures known { OnOk result
            (known self.new.cell.seat ≡ saved_by (known self.old.cell.seat)) }
        ensures closed { IsErrOf result Refusal.Closed ↔ (self.old.cell.is_open ≡ false) }
        ensures disk { IsErrOf result Refusal.Disk
            → Grew (D.faults self.old.cell.disk) (D.faults self.new.cell.disk) }
        ensures too_large { IsErrOf result Refusal.ImageTooLarge
            → IsTooLarge self.old.cell.node.core }
        ensures others { IfErr result (λ e. (e ≡ refusal.Closed) ⊎ ((e ≡ refusal.ImageTooLarge)
            ⊎ ((e ≡ refusal.Memory) ⊎ (e ≡ refusal.Disk)))) }
    {
        let Held { cell, wire, .. } = self;
        cell.save(wire)
    }

    // As `Cell::pump_in` does.
    #[inline(always)]
    fn pump_in(&mut self, from: u8) -> Result<Inbound, Refusal>
        ensures pumped { IsTrue self.old.cell.is_open
            → IsTrue (is_other self.old.cell.node.core.local from)
            → PumpedIn from result self.old.cell self.new.cell }
        ensures closed { IsErrOf result Refusal.Closed ↔ (self.old.cell.is_open ≡ false) }
        ensures no_node { IsTrue self.old.cell.is_open
            → is_other self.old.cell.node.core.local from ≡ false
            → IsErrOf result Refusal.NoNode }
    {
        let Held { cell, wire, .. } = self;
        cell.pump_in(wire, from)
    }

    // As `Cell::pump_out` does.
    #[inline(always)]
    fn pump_out(&mut self, to: u8) -> Result<Outbound, Refusal>
        ensures sent { IfOk result (λ o. IsSent (outbox self.old.cell.seat to)
            (frame_due self.old.cell.node.core to (slice_index_or self.old.cell.places to 0))
            (is_out o) (known self.old.cell.seat) (known self.new.cell.seat)) }
        ensures closed { IsErrOf result Refusal.Closed ↔ (self.old.cell.is_open ≡ false) }
        ensures no_node { IsTrue self.old.cell.is_open
            → (IsErrOf result Refusal.NoNode
            ↔ (is_other self.old.cell.node.core.local to ≡ false)) }
        ensures others { IfErr result (λ e. (e ≡ refusal.Closed)
            ⊎ ((e ≡ refusal.NoNode) ⊎ (e ≡ refusal.Memory))) }
    {
        let Held { cell, wire, .. } = self;
        cell.pump_out(wire, to)
    }

    // As `Cell::bytes` does, into a buffer.
    fn bytes(&self, object: u16, offset: u32, buffer: &mut [u8]) -> Result<(), Refusal>
        ensures read { IsTrue self.now.cell.is_open
            → Fills (node_bytes self.now.cell.node object offset (length buffer.old))
            buffer.old buffer.new result }
        ensures closed { self.now.cell.is_open ≡ false
            → IsErrOf result Refusal.Closed × (buffer.new ≡ buffer.old) }
    {
        let Ok(count) = u32::try_from(buffer.len()) else {
            // No object has as many bytes. What it refuses first is refused here, too.
            let _len = self.cell.bytes_len(object)?;
            return Err(Refusal::NoBytes);
        };
        let bytes = self.cell.bytes(object, offset, count)?;
        buffer.copy_from_slice(bytes);
        Ok(())
    }

    // As `Cell::letter_part` does, into a buffer.
    fn letter_bytes(&self, buffer: &mut [u8]) -> Result<(), Refusal>
        ensures read { IsTrue self.now.cell.is_open
            → Fills (node_letter_part self.now.cell.node (length buffer.old))
            buffer.old buffer.new result }
        ensures closed { self.now.cell.is_open ≡ false
            → IsErrOf result Refusal.Closed × (buffer.new ≡ buffer.old) }
    {
        let bytes = self.cell.letter_part(buffer.len())?;
        buffer.copy_from_slice(bytes);
        Ok(())
    }
}

impl<D: Disk, W: Naming> SharedOn<D, W> {
    /// Shares a cell whose seat belongs to the wire.
    pub fn new(cell: Cell<D>, wire: Arc<Wire>) -> SharedOn<D, W>
        requires seat { IsSeatOf (arc_value wire) cell.seat }
        requires name { IsNamed W.wire (name_of (arc_value wire)) }
        requires begun { IsTrue W.begun → HasBegun cell }
        ensures first { result.first.value ≡ desk_of cell }
    {
        let first = cell.first();
        SharedOn {
            held: Mutex::new(Held {
                cell,
                wire,
                name: PhantomData,
            }),
            first,
        }
    }

    /// Gives the cell back, as the last call left it. If a wire is named, the seat is one of it.
    /// If that is named too, the cell was made with a node that had dropped only acknowledged
    /// messages.
    pub fn into_cell(self) -> Cell<D>
        ensures name { IsNamed W.wire (seat_name result.seat) }
        ensures width { result.seat.nodes ≡ nodes_of (known result.seat).opening }
        ensures begun { IsTrue W.begun → HasBegun result }
    {
        let SharedOn { held, first: _ } = self;
        let Held {
            cell,
            wire: _,
            name: _,
        } = held.into_inner();
        cell
    }

    /// Gives the node an event of its own; see [`Cell::act`]. The answer is that of the node as it
    /// was when this call had locked the cell.
    pub fn act<R: Wait>(&self, rt: &R, event: &Event) -> Result<Answer, Refusal>
        requires own { is_own event.now ≡ true }
        ensures answered { WasAnswered D.may_leave W.wire event.now result }
    {
        let mut held = self.held.lock(rt);
        let Held { cell, wire, .. } = &mut *held;
        // Called for its contract.
        let _node = cell.node();
        cell.act(wire, event)
    }

    /// Fills the buffer with the bytes from `offset` on of the object that the register `object`
    /// names; see [`Cell::bytes`]. They are those of the node as it was when this call had locked
    /// the cell. If the call fails, the buffer is unchanged.
    pub fn bytes<R: Wait>(
        &self,
        rt: &R,
        object: u16,
        offset: u32,
        buffer: &mut [u8],
    ) -> Result<(), Refusal>
        ensures read { WasFilled D.may_leave W.wire object offset buffer.old buffer.new result }
    {
        let locked = self.held.lock(rt);
        let held = &*locked;
        // Called for its contract.
        let _node = held.cell.node();
        held.bytes(object, offset, buffer)
    }

    /// How many bytes the object has that the register `object` names; see [`Cell::bytes_len`]. It
    /// is that of the node as it was when this call had locked the cell.
    pub fn bytes_len<R: Wait>(&self, rt: &R, object: u16) -> Result<u32, Refusal>
        ensures read { WasMeasured D.may_leave W.wire object result }
    {
        let locked = self.held.lock(rt);
        let held = &*locked;
        // Called for its contract.
        let _node = held.cell.node();
        held.cell.bytes_len(object)
    }

    /// What the program is told of the oldest letter before it accepts it; see [`Cell::letter`]. It
    /// is that of the node as it was when this call had locked the cell.
    pub fn letter<R: Wait>(&self, rt: &R) -> Result<Accepted, Refusal>
        ensures read { WasTold D.may_leave W.wire result }
    {
        let locked = self.held.lock(rt);
        let held = &*locked;
        // Called for its contract.
        let _node = held.cell.node();
        held.cell.letter()
    }

    /// Fills the buffer with the first bytes of the oldest letter; see [`Cell::letter_part`]. They
    /// are those of the node as it was when this call had locked the cell. If the call fails, the
    /// buffer is unchanged.
    pub fn letter_bytes<R: Wait>(&self, rt: &R, buffer: &mut [u8]) -> Result<(), Refusal>
        ensures read { WasCopied D.may_leave W.wire buffer.old buffer.new result }
    {
        let locked = self.held.lock(rt);
        let held = &*locked;
        // Called for its contract.
        let _node = held.cell.node();
        held.letter_bytes(buffer)
    }

    /// Gives the node the waiting message from another node, or else the frame in the mailbox from
    /// there; see [`Cell::pump_in`].
    pub fn pump_in<R: Wait>(&self, rt: &R, from: u8) -> Result<Inbound, Refusal> {
        self.held.lock(rt).pump_in(from)
    }

    /// Saves the node; see [`Cell::save`].
    pub fn save<R: Wait>(&self, rt: &R) -> Result<(), Refusal>
        ensures others { IfErr result (λ e. (e ≡ refusal.Closed) ⊎ ((e ≡ refusal.ImageTooLarge)
            ⊎ ((e ≡ refusal.Memory) ⊎ (e ≡ refusal.Disk)))) }
    {
        self.held.lock(rt).save()
    }

    /// Sends the next frame to another node; see [`Cell::pump_out`].
    pub fn pump_out<R: Wait>(&self, rt: &R, to: u8) -> Result<Outbound, Refusal>
        ensures others { IfErr result (λ e. (e ≡ refusal.Closed)
            ⊎ ((e ≡ refusal.NoNode) ⊎ (e ≡ refusal.Memory))) }
    {
        self.held.lock(rt).pump_out(to)
    }

    /// Loads the node that the disk holds; see [`Cell::reopen`]. The cell is then open, or closed
    /// if this fails.
    pub fn reopen<R: Wait>(&self, rt: &R) -> Result<Reopened, Shut>
        ensures others { IfErr result (λ s. (s.refusal ≡ refusal.Memory)
            ⊎ (s.refusal ≡ refusal.Disk)) }
    {
        self.held.lock(rt).reopen()
    }

    /// Shows on the wire's board the last cycle that the saved node 0 counts as ended; see
    /// [`Cell::raise`]. If the wire is named, the result belongs to that wire.
    pub fn raise<R: Wait>(&self, rt: &R) -> Result<Raised, Refusal>
        ensures raised { IfOk result (λ r. IsNamed W.wire (raised_on r)) }
        ensures others { IfErr result (λ e. e ≢ refusal.Closed → e ≡ refusal.NotDirector) }
    {
        let mut held = self.held.lock(rt);
        let Held { cell, wire, .. } = &mut *held;
        cell.raise(wire)
    }

    /// Whether an event happened since the last save or reopening.
    pub fn unsaved<R: Wait>(&self, rt: &R) -> bool {
        self.held.lock(rt).cell.unsaved()
    }

    /// How many objects the node has, and whether an event happened since the last save or
    /// reopening.
    pub fn look<R: Wait>(&self, rt: &R) -> Look {
        let held = self.held.lock(rt);
        Look {
            live: held.cell.node().state().live,
            unsaved: held.cell.unsaved(),
        }
    }

    /// The cell's last calls as text, oldest first, even while the cell is closed; see
    /// [`Cell::trace_lines`]. Fails with `Memory` if an allocation fails.
    pub fn trace_lines<R: Wait>(&self, rt: &R) -> Result<Vec<String>, Refusal>
        ensures refused { IfErr result (λ e. e ≡ refusal.Memory) }
    {
        self.held.lock(rt).cell.trace_lines()
    }
}

impl<D: Disk, W: Naming> Station for SharedOn<D, W> {
    #[inline(always)]
    fn pump_in<R: Wait>(&self, rt: &R, from: u8) -> Result<Inbound, Refusal> {
        SharedOn::pump_in(self, rt, from)
    }

    fn act<R: Wait>(&self, rt: &R, event: &Event) -> Result<Answer, Refusal> {
        SharedOn::act(self, rt, event)
    }

    fn look<R: Wait>(&self, rt: &R) -> Look {
        SharedOn::look(self, rt)
    }

    fn save<R: Wait>(&self, rt: &R) -> Result<(), Refusal> {
        SharedOn::save(self, rt)
    }

    #[inline(always)]
    fn pump_out<R: Wait>(&self, rt: &R, to: u8) -> Result<Outbound, Refusal> {
        SharedOn::pump_out(self, rt, to)
    }

    fn raise<R: Wait>(&self, rt: &R) -> Result<Raised, Refusal> {
        SharedOn::raise(self, rt)
    }
}
