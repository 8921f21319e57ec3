//! What a cell does with its disk. A save releases what the node sent and received. A save in which
//! the disk fails closes the cell until its disk is opened again.
ghost use Rattle.std.specs.Prelude.{◌≡◌, ◌≢◌, ◌↔◌, ◌⊎◌, ◌-◌, ◌<◌, ◌++◌, [], ◌∷◌, length};
ghost use Rattle.std.specs.Prelude.{true, false, IfErr, IfOk, IsErrOf, IsTrue, OnErr, OnOk, replicate};
ghost use Rattle.circular_buffer.specs.Buffer.{keep_last};
ghost use Rattle.ids.specs.declared.limits.TheConstants.{GREATEST_NODES};
ghost use Rattle.ids.specs.declared.limits.TheConstants.{TRACE_EVENTS};
ghost use Rattle.cell.specs.declared.call.Call.TheVariants as call;
ghost use Rattle.model.specs.View.{kept_view};
ghost use Rattle.node.specs.Keeping.{kept_whole};
ghost use Rattle.image.specs.Images.{IsTooLarge};
ghost use Rattle.disk.specs.Crashes.{Grew, LeavesOnly};
ghost use Rattle.disk.specs.Memory.{AfterCrash};
ghost use Rattle.disk.specs.Plan.{fails_from, fails_once};
ghost use Rattle.wire.specs.Readers.{known, IsSame, IsSeatOf};
ghost use Rattle.cell.specs.Cells.{HoldsEither, IsSound};
ghost use Rattle.cell.specs.Disks.{is_same_node, HoldsSaved, OpensToNode};
ghost use Rattle.cell.specs.Events.{done_outcome, found_step, reopened_by, restarted_by, saved_by};
ghost use Rattle.wire.specs.Entering.{Entered};
ghost use Rattle.model.specs.declared.step.Step.TheVariants as step;

use super::Cell;
use crate::{Call, CallOutcome};
use disk::{Disk, MemoryDisk, OverMemory};
use ids::Refusal;
use wire::Wire;

impl<D: Disk> Cell<D> {
    /// Saves the node, which releases all that it sent and received, and enters the save in the
    /// history. A crash at any moment since the call began leaves a disk that opens to the last
    /// saved node or to this one.
    ///
    /// Fails with `Closed` exactly if the cell is closed, with `ImageTooLarge` if the node's image
    /// is written and is too large, which it never is in a wide space, and with `Memory`; these
    /// change nothing. Fails with `Disk` if the device failed: this closes the cell, and no event
    /// enters. Either way a line is added to the trace.
    pub fn save(&mut self, wire: &Wire) -> Result<(), Refusal>
        requires wire { IsSeatOf wire.now self.old.seat }
        ensures done { OnOk result (self.new ≡ record self.old {
          node = kept_whole self.old.node;
          saved = kept_view self.old.node.core;
          seat = self.new.seat;
          unsaved = false;
          disk = self.new.disk;
          is_open = true;
          trace = self.new.trace;
        }) }
        ensures known { OnOk result (known self.new.seat ≡ saved_by (known self.old.seat)) }
        ensures entered { OnOk result (Entered (step.Save (known self.old.seat).me)
            (known self.old.seat) (known self.new.seat)) }
        ensures any_moment { ∥ LeavesOnly D.moment D.left_since self.old.disk self.new.disk
            (HoldsEither self.old) ∥₁ }
        ensures same { IsSame self.old.seat self.new.seat }
        ensures refused { OnErr result (self.new ≡ record self.old {
          disk = self.new.disk;
          is_open = self.new.is_open;
          trace = self.new.trace;
        }) }
        ensures closed { IsErrOf result Refusal.Closed ↔ (self.old.is_open ≡ false) }
        ensures disk { IsErrOf result Refusal.Disk
            → Grew (D.faults self.old.disk) (D.faults self.new.disk)
            × (self.new.is_open ≡ false) }
        ensures too_large { IsErrOf result Refusal.ImageTooLarge →
            IsTrue self.old.is_open × IsTooLarge self.old.node.core }
        ensures whole { self.old.logs ≡ false → IsTrue self.old.is_open
            → IsTooLarge self.old.node.core → IsErrOf result Refusal.ImageTooLarge }
        ensures wide { self.old.node.core.local.shape.wide ≡ true
            → IfErr result (λ e. e ≢ Refusal.ImageTooLarge) }
        ensures unchanged { IfErr result (λ e. e ≢ Refusal.Disk
            → self.new ≡ record self.old { trace = self.new.trace }) }
        ensures others { IfErr result (λ e. (e ≡ Refusal.Closed) ⊎ ((e ≡ Refusal.ImageTooLarge)
            ⊎ ((e ≡ Refusal.Memory) ⊎ (e ≡ Refusal.Disk)))) }
        ensures traced { self.new.trace ≡ keep_last TRACE_EVENTS (self.old.trace
            ++ record { call = call.Save; outcome = done_outcome result } ∷ []) }
    {
        match self.store.save(self.desk.logged()) {
            Ok(()) => {
                // Called for its contract.
                let _logs = self.store.logs();
                self.desk.save(wire);
                self.trace.push(Call::Save, CallOutcome::Done);
                Ok(())
            }
            Err(refusal) => {
                self.trace.push(Call::Save, CallOutcome::Refused(refusal));
                Err(refusal)
            }
        }
    }

    /// Syncs the disk and loads the node that it holds; the cell is then open. If the cell was
    /// open, this is a restart, also after failed reopenings of an open cell. After a save that
    /// failed with `Disk`, it is a restart or that save, depending on what the disk opens to. The
    /// windows to other nodes are sent from their start again. Messages that were kept until their
    /// turn are lost, even if it is that save. A crash during the call leaves only what it could
    /// have left before.
    ///
    /// Fails with `Disk` if the device failed, and with `Memory`: the cell is then closed, and no
    /// event enters. Either way a line is added to the trace.
    pub fn reopen(&mut self, wire: &Wire) -> Result<(), Refusal>
        requires wire { IsSeatOf wire.now self.old.seat }
        ensures opened { OnOk result (OpensToNode self.new.node (D.seen self.old.disk)) }
        ensures done { OnOk result (self.new ≡ record self.old {
          node = self.new.node;
          saved = self.new.node.core;
          seat = self.new.seat;
          places = replicate GREATEST_NODES 0;
          unsaved = false;
          disk = self.new.disk;
          is_open = true;
          trace = self.new.trace;
        }) }
        ensures known { OnOk result (known self.new.seat
            ≡ reopened_by (is_same_node self.new.node.core self.old.saved)
            (known self.old.seat)) }
        ensures entered { OnOk result (Entered
            (found_step (is_same_node self.new.node.core self.old.saved) (known self.old.seat).me)
            (known self.old.seat) (known self.new.seat)) }
        ensures restarted { OnOk result
            (IsTrue self.old.is_open ⊎ HoldsSaved (D.may_leave self.old.disk) self.old.saved
            → known self.new.seat ≡ restarted_by (known self.old.seat)) }
        ensures saved_still { OnErr result
            (IsTrue self.old.is_open ⊎ HoldsSaved (D.may_leave self.old.disk) self.old.saved
            → HoldsSaved (D.may_leave self.new.disk) self.new.saved) }
        ensures any_moment { LeavesOnly D.moment D.left_since self.old.disk self.new.disk
            (D.may_leave self.old.disk) }
        ensures same { IsSame self.old.seat self.new.seat }
        ensures refused { OnErr result (self.new ≡ record self.old {
          disk = self.new.disk;
          is_open = false;
          trace = self.new.trace;
        }) }
        ensures disk { IsErrOf result Refusal.Disk
            → Grew (D.faults self.old.disk) (D.faults self.new.disk) }
        ensures others { IfErr result (λ e. (e ≡ Refusal.Memory) ⊎ (e ≡ Refusal.Disk)) }
        ensures traced { self.new.trace ≡ keep_last TRACE_EVENTS (self.old.trace
            ++ record { call = call.Reopen; outcome = done_outcome result } ∷ []) }
    {
        match self.store.reopen() {
            Ok(found) => {
                // Called for its contract.
                let _logs = self.store.logs();
                self.desk.reopen(wire, found);
                self.trace.push(Call::Reopen, CallOutcome::Done);
                Ok(())
            }
            Err(refusal) => {
                self.trace.push(Call::Reopen, CallOutcome::Refused(refusal));
                Err(refusal)
            }
        }
    }
}

impl<D: Disk> Cell<D> {
    /// Whether the cell is open.
    pub fn is_open(&self) -> bool
        ensures { result ≡ self.now.is_open }
    {
        self.store.is_ready()
    }

    /// The disk, as the cell leaves it; node and seat are dropped. The contract states everything
    /// that a cell guarantees between two calls.
    pub fn into_disk(self) -> D
        ensures disk { result ≡ self.disk }
        ensures sound { IsSound D.may_leave self }
    {
        // Called for its contract.
        let _node = self.node();
        let Cell {
            alloc: _,
            desk: _,
            store,
            trace: _,
            origin: _,
        } = self;
        store.into_disk()
    }
}

impl Cell<MemoryDisk> {
    /// From now on, the `k`-th call of the disk and all later ones fail; see
    /// [`MemoryDisk::fail_from`].
    pub fn fail_from(&mut self, k: u64)
        ensures plan { self.new.disk.plan ≡ fails_from k }
        ensures account { self.new.disk.account ≡ self.old.disk.account }
        ensures stays { self.new ≡ record self.old { disk = self.new.disk } }
    {
        self.store.fail_from(k);
    }

    /// The `k`-th call of the disk from now on fails, and no later one; see
    /// [`MemoryDisk::fail_once`].
    pub fn fail_once(&mut self, k: u64)
        ensures plan { self.new.disk.plan ≡ fails_once k }
        ensures account { self.new.disk.account ≡ self.old.disk.account }
        ensures stays { self.new ≡ record self.old { disk = self.new.disk } }
    {
        self.store.fail_once(k);
    }

    /// The disk that a crash now leaves; see [`MemoryDisk::after_crash`].
    pub fn after_crash(&self, fill: u8) -> Result<MemoryDisk, Refusal>
        ensures left { IfOk result (AfterCrash fill self.now.disk) }
        ensures memory { IfErr result (λ e. e ≡ Refusal.Memory) }
    {
        self.store.after_crash(fill)
    }
}
