//! The cells of a space, shared by its threads. Each is under a lock of its own, and all share one
//! wire.
ghost use Rattle.std.specs.Prelude.{◌≡◌, ◌≢◌, All, IfErr, IfOk, IsErrOf, IsTrue, MatchResult, OnOk};
ghost use Rattle.std.specs.Prelude.{List, length, map, vec_len};
ghost use Rattle.std.specs.Arc.{arc_value};
ghost use Rattle.ids.specs.declared.refusal.Refusal.TheVariants.{Memory};
ghost use Rattle.model.specs.World.{World};
ghost use Rattle.model.specs.declared.step.Step.{Step};
ghost use Rattle.disk.specs.Crashes.{LeavesOnly};
ghost use Rattle.wire.specs.Readers.{IsMade, IsSeatOf, opened_with};
ghost use Rattle.wire.specs.Rule.{nodes_of};
ghost use Rattle.wire.specs.OneAge.{AreOfOneAge};
ghost use Rattle.cell.specs.Ages.{AreRead, IfAges, IsWhy as IsWhyUnopened};
ghost use Rattle.cell.specs.Cells.{desk_of, IsNew};
ghost use Rattle.cell.specs.Copies.{AreCopiesOn};
ghost use Rattle.cell.specs.Closing.{AreOfOneKill, AreOfOneMoment, HasBegun, HaveBegun};
ghost use Rattle.cell.specs.Looking.{AreIntact};
ghost use Rattle.cell.specs.Names.{name_of, IsNamed};
ghost use Rattle.cell.specs.Opened.{cores, world_of, AreBeside, IsChosen, IsReadFrom, StaysOrNew};
ghost use Rattle.cell.specs.Reached.{IsReached};
ghost use Rattle.cell.specs.Shares.{first_of};
ghost use Rattle.cell.specs.Theorems.{AreFresh, AreHeldOn, AreLeftOn};
ghost use Rattle.supervisor.specs.declared.fault.OpenFault.TheVariants as fault;
ghost use Rattle.supervisor.specs.Opened.{AreInPlace, AreSeats, AreWatches, IfUnopened, fault_of};
ghost use Rattle.supervisor.specs.declared.cells.TheConstants.{WATCHES};

use crate::OpenFault;
use cell::{Cell, Naming, SharedOn, Unopened};
use disk::Disk;
use ids::{Refusal, Saves, Shape};
use std::alloc::Global;
use std::sync::Arc;
use wire::{Watch, Wire};

/// How many watches a space gives out.
pub const WATCHES: u8 = 16;

// A cell with its wire, as threads share it.
fn share<D: Disk + Drop, W: Naming>(
    alloc: Global,
    wire: &Arc<Wire>,
    cell: Cell<D>,
) -> Result<Arc<SharedOn<D, W>>, Refusal>
    requires seat { IsSeatOf (arc_value wire.now) cell.seat }
    requires name { IsNamed W.wire (name_of (arc_value wire.now)) }
    requires begun { IsTrue W.begun → HasBegun cell }
    ensures first { IfOk result (λ s. first_of (arc_value s) ≡ desk_of cell) }
    ensures refused { IfErr result (λ e. e ≡ Memory) }
{
    let shared = SharedOn::new(cell, same_wire(wire)?);
    Ok(Arc::new(alloc, shared)?)
}

// One more holder of the wire.
fn same_wire(wire: &Arc<Wire>) -> Result<Arc<Wire>, Refusal>
    ensures same { IfOk result (λ w. arc_value w ≡ arc_value wire.now) }
    ensures refused { IfErr result (λ e. e ≡ Memory) }
{
    match wire.clone() {
        Ok(wire) => Ok(wire),
        Err(_) => Err(Refusal::Memory),
    }
}

// The cells of a wire, in order, as threads share them.
fn share_all<D: Disk + Drop, W: Naming>(
    alloc: Global,
    wire: &Arc<Wire>,
    mut cells: Vec<Cell<D>>,
) -> Result<Vec<Arc<SharedOn<D, W>>>, Refusal>
    requires name { IsNamed W.wire (name_of (arc_value wire.now)) }
    requires seats { AreSeats (arc_value wire.now) (map (λ c. c.seat) cells.items) }
    requires begun { HaveBegun cells.items }
    ensures count { IfOk result (λ v. vec_len v ≡ vec_len cells) }
    ensures first { IfOk result (λ v.
        map (λ s. first_of (arc_value s)) v.items ≡ map desk_of cells.items) }
    ensures refused { IfErr result (λ e. e ≡ Memory) }
{
    let mut shared = Vec::new(alloc);
    for _ in 0..cells.len() {
        let cell = cells.remove(0);
        shared.push(share(alloc, wire, cell)?)?;
    }
    Ok(shared)
}

// The cells of a space on these disks, the wire between them, and the wire's watches.
pub(crate) fn open_alone<D: Disk + Drop>(
    alloc: Global,
    shape: Shape,
    disks: Vec<D>,
    saves: Saves,
) -> Result<(Wire, Vec<Cell<D>>, Vec<Watch>), OpenFault>
    ensures disks { vec_len disks ≢ shape.nodes → IsErrOf result fault.Disks }
    ensures why { IfErr result
        (IfUnopened (IsWhyUnopened D.seen D.seals D.moment D.faults shape disks.items)) }
    ensures one_age { IfOk result (λ _. AreRead D.seen shape disks.items AreOfOneAge) }
    ensures count { IfOk result (λ r. vec_len r.1 ≡ shape.nodes) }
    ensures places { IfOk result (λ r.
        AreInPlace (map (λ c. c.node) r.1.items) (λ n. n.core.local.own)) }
    ensures seats { IfOk result (λ r. AreSeats r.0 (map (λ c. c.seat) r.1.items)) }
    ensures watches { IfOk result (λ r. AreWatches r.0 r.2.items) }
    ensures watch_count { IfOk result (λ r. vec_len r.2 ≡ WATCHES) }
    ensures width { IfOk result (λ r. nodes_of (opened_with r.0) ≡ shape.nodes) }
    ensures closed { (opening : World) → IsReached opening → nodes_of opening ≡ shape.nodes
        → AreOfOneMoment D.may_leave opening disks.items
        → MatchResult result (λ r. IsReached (opened_with r.0))
        (IfUnopened (IfAges (λ _ _. ⊥))) }
    ensures killed { (opening : World) → IsReached opening → nodes_of opening ≡ shape.nodes
        → AreOfOneKill D.seen D.may_leave opening disks.items
        → MatchResult result (λ r. IsReached (opened_with r.0))
        (IfUnopened (IfAges (λ _ _. ⊥))) }
    ensures fresh { AreFresh D.seen shape disks.items
        → MatchResult result (λ r. IsReached (opened_with r.0))
        (IfUnopened (IfAges (λ _ _. ⊥))) }
    ensures left { (w : World) → AreLeftOn D.seen shape w disks.items
        → IfOk result (λ r. IsReached (opened_with r.0)) }
    ensures kept { (w : World) → AreLeftOn D.seen shape w disks.items
        → AreHeldOn D.seen shape w disks.items
        → IfErr result (IfUnopened (IfAges (λ _ _. ⊥))) }
    ensures copies { (steps : List Step) → AreCopiesOn D.seen shape steps disks.items
        → IfOk result (λ r. IsReached (opened_with r.0)) }
    ensures begun { IfOk result (λ r. HaveBegun r.1.items) }
    ensures read { IfOk result (λ r. AreBeside (λ k d n. IsReadFrom shape k (D.seen d) n)
        disks.items (map (λ c. c.node) r.1.items)) }
    ensures any_moment { IfOk result (λ r. AreBeside (λ k d c.
        LeavesOnly D.moment D.left_since d c.disk
        (StaysOrNew D.seen D.may_leave shape k d)) disks.items r.1.items) }
    ensures all { IfOk result (λ r. length r.1.items ≡ length disks.items) }
    ensures intact { OnOk result (AreIntact D.seen D.seals disks.items) }
    ensures new { IfOk result (λ r. All IsNew r.1.items) }
    ensures made { IfOk result (λ r. IsMade
        (world_of (cores (map (λ c. c.node) r.1.items))) WATCHES r.0
        (map (λ c. c.seat) r.1.items) r.2.items) }
    ensures logs { IfOk result (λ r. AreBeside
        (λ k d c. IsChosen saves (D.seen d) c.logs) disks.items r.1.items) }
{
    match cell::open(alloc, shape, disks, WATCHES, saves) {
        Ok(opened) => Ok(opened),
        Err(why) => Err(fault_of(why)),
    }
}

// Why a space isn't opened if its cells aren't.
fn fault_of(why: Unopened) -> OpenFault
    ensures { result ≡ fault_of why }
{
    match why {
        Unopened::Disks => OpenFault::Disks,
        Unopened::Another { node } => OpenFault::Another { node },
        Unopened::Ages { sender, receiver } => OpenFault::Ages { sender, receiver },
        Unopened::Failed { node, refusal } => OpenFault::Failed { node, refusal },
        Unopened::Memory => OpenFault::Memory,
    }
}

// The same wire and cells, as threads share them.
pub(crate) fn share_on<D: Disk + Drop, W: Naming>(
    alloc: Global,
    wire: Wire,
    cells: Vec<Cell<D>>,
) -> Result<(Arc<Wire>, Vec<Arc<SharedOn<D, W>>>), Refusal>
    requires name { IsNamed W.wire (name_of wire) }
    requires seats { AreSeats wire (map (λ c. c.seat) cells.items) }
    requires begun { HaveBegun cells.items }
    ensures wire { IfOk result (λ r. arc_value r.0 ≡ wire) }
    ensures count { IfOk result (λ r. vec_len r.1 ≡ vec_len cells) }
    ensures first { IfOk result (λ r.
        map (λ s. first_of (arc_value s)) r.1.items ≡ map desk_of cells.items) }
    ensures refused { IfErr result (λ e. e ≡ Memory) }
{
    let wire = Arc::new(alloc, wire)?;
    let shared = share_all(alloc, &wire, cells)?;
    Ok((wire, shared))
}
