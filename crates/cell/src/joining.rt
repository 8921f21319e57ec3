//! Makes the cells of nodes that are in stores, and the wire between them. The caller names the
//! world whose states the nodes are in; the theorems hold if a run reaches it.
ghost use Rattle.std.specs.Prelude.{◌≡◌, ◌≢◌, ℕ, true, All, IfErr, IfOk, IsErrOf, List, MatchResult, OnOk, Some, length};
ghost use Rattle.std.specs.Prelude.{map, slice_get, vec_len};
ghost use Rattle.ids.specs.declared.refusal.Refusal.TheVariants.{Memory};
ghost use Rattle.disk.specs.Crashes.{LeavesOnly};
ghost use Rattle.model.specs.World.{World};
ghost use Rattle.model.specs.declared.step.Step.{Step};
ghost use Rattle.node.specs.Keeping.{WholeNode};
ghost use Rattle.wire.specs.Readers.{AreOpened, IsMade, opened_with};
ghost use Rattle.wire.specs.Rule.{nodes_of};
ghost use Rattle.wire.specs.OneAge.{AreOfOneAge};
ghost use Rattle.cell.specs.Ages.{IfAges, IsWhy};
ghost use Rattle.cell.specs.Cells.{IsNew};
ghost use Rattle.cell.specs.Copies.{AreCopiesOn};
ghost use Rattle.cell.specs.Closing.{AreOfOneKill, AreOfOneMoment, HaveBegun};
ghost use Rattle.cell.specs.Reached.{IsReached};
ghost use Rattle.cell.specs.Theorems.{AreFresh, AreHeldOn, AreLeftOn};
ghost use Rattle.cell.specs.Disks.{OpensToNode};
ghost use Rattle.cell.specs.Looking.{AreIntact};
ghost use Rattle.cell.specs.Opened.{
  cores,
  world_of,
  AreBeside,
  AreFound,
  AreReady,
  IsChosen,
  IsNodeOf,
  IsReadFrom,
  StaysOrNew,
};
ghost use Rattle.cell.specs.declared.fault.Unopened.TheVariants as fault;
ghost use Rattle.node_store.specs.Stores.{disk_of, is_ready_in, logs_in};

use crate::cell::Cell;
use crate::fault::Unopened;
use crate::finding::find;
use disk::Disk;
use ids::{Refusal, Saves, Shape};
use node::Node;
use node_store::Store;
use std::alloc::Global;
use wire::{NodeSeat, Watch, Wire};

// The cells of nodes, in order, each with its store and its seat.
fn seat_all<D: Disk + Drop>(
    alloc: Global,
    mut nodes: Vec<Node>,
    mut stores: Vec<Store<D>>,
    mut seats: Vec<NodeSeat>,
) -> Result<Vec<Cell<D>>, Refusal>
    requires { AreReady (λ n s. (is_ready_in s ≡ true) × OpensToNode n (D.seen (disk_of s)))
        nodes.items stores.items seats.items }
    ensures nodes { IfOk result (λ v. map (λ c. c.node) v.items ≡ nodes.items) }
    ensures disks { IfOk result (λ v. map (λ c. c.disk) v.items
        ≡ map disk_of stores.items) }
    ensures logs { IfOk result (λ v. map (λ c. c.logs) v.items ≡ map logs_in stores.items) }
    ensures seats { IfOk result (λ v. map (λ c. c.seat) v.items ≡ seats.items) }
    ensures new { IfOk result (λ v. All IsNew v.items) }
    ensures refused { IfErr result (λ e. e ≡ Memory) }
{
    let mut cells = Vec::new(alloc);
    for _ in 0..nodes.len() {
        let node = nodes.remove(0);
        let store = stores.remove(0);
        let seat = seats.remove(0);
        cells.push(Cell::new(alloc, node, store, seat)?)?;
    }
    Ok(cells)
}

/// Makes the wire between nodes in their stores, their cells in order, and the given number of
/// watches. The wire begins in a world that the caller names, in which everything is saved and
/// whose states the nodes show. If a run left that world on the disks, [`laws`](crate::laws)
/// applies to the cells.
///
/// Fails with `Memory` if an allocation fails; all arguments are then dropped.
pub fn join<D: Disk + Drop>(
    alloc: Global,
    shape: Shape,
    nodes: Vec<Node>,
    stores: Vec<Store<D>>,
    watches: u8,
) -> Result<(Wire, Vec<Cell<D>>, Vec<Watch>), Refusal>
    ghost opening: { World }
    requires opened { AreOpened shape (cores nodes.items) opening }
    requires found { AreFound (λ n s. (is_ready_in s ≡ true) × OpensToNode n (D.seen (disk_of s)))
        shape nodes.items stores.items }
    ensures nodes { IfOk result (λ r. map (λ c. c.node) r.1.items ≡ nodes.items) }
    ensures disks { IfOk result (λ r. map (λ c. c.disk) r.1.items
        ≡ map disk_of stores.items) }
    ensures logs { IfOk result (λ r. map (λ c. c.logs) r.1.items ≡ map logs_in stores.items) }
    ensures new { IfOk result (λ r. All IsNew r.1.items) }
    ensures made { IfOk result (λ r. IsMade opening watches r.0
        (map (λ c. c.seat) r.1.items) r.2.items) }
    ensures refused { IfErr result (λ e. e ≡ Memory) }
{
    let (wire, seats, watching) = Wire::new(alloc, shape, nodes.as_slice(), watches)?;
    let cells = seat_all(alloc, nodes, stores, seats)?;
    Ok((wire, cells, watching))
}

/// Opens the cells of a space, in order, the wire between them, and the given number of watches. A
/// disk on which nothing was ever created gets a new node; any other gives the node that it holds.
/// The wire begins in the world of those nodes, in which everything is saved and what was
/// acknowledged before is unknown. A caller that knows more of that world uses [`find`] and
/// [`join`].
///
/// Fails as [`find`] and [`join`] do; all disks are then dropped. Before an error that [`find`]
/// gives while it reads the disks, nothing was written on any of them.
///
/// A save adds events to a log if the caller chose that, or if a log follows the image on the disk;
/// otherwise it writes the image.
pub fn open<D: Disk + Drop>(
    alloc: Global,
    shape: Shape,
    mut disks: Vec<D>,
    watches: u8,
    saves: Saves,
) -> Result<(Wire, Vec<Cell<D>>, Vec<Watch>), Unopened>
    ensures disks { vec_len disks ≢ shape.nodes → IsErrOf result fault.Disks }
    ensures why { IfErr result (IsWhy D.seen D.seals D.moment D.faults shape disks.items) }
    ensures read { IfOk result (λ r. AreBeside (λ k d n. IsReadFrom shape k (D.seen d) n)
        disks.items (map (λ c. c.node) r.1.items)) }
    ensures any_moment { IfOk result (λ r. AreBeside (λ k d c.
        LeavesOnly D.moment D.left_since d c.disk
        (StaysOrNew D.seen D.may_leave shape k d)) disks.items r.1.items) }
    ensures logs { IfOk result (λ r. AreBeside
        (λ k d c. IsChosen saves (D.seen d) c.logs) disks.items r.1.items) }
    ensures shaped { IfOk result (λ r. (k : ℕ) (n : WholeNode)
        → slice_get (map (λ c. c.node) r.1.items) k ≡ Some n → IsNodeOf shape k n.core) }
    ensures count { IfOk result (λ r. vec_len r.1 ≡ shape.nodes) }
    ensures all { IfOk result (λ r. length r.1.items ≡ length disks.items) }
    ensures intact { OnOk result (AreIntact D.seen D.seals disks.items) }
    ensures one_age { IfOk result (λ r. AreOfOneAge (map (λ c. c.node) r.1.items)) }
    ensures closed { (opening : World) → IsReached opening → nodes_of opening ≡ shape.nodes
        → AreOfOneMoment D.may_leave opening disks.items
        → MatchResult result (λ r. IsReached (opened_with r.0)) (IfAges (λ _ _. ⊥)) }
    ensures killed { (opening : World) → IsReached opening → nodes_of opening ≡ shape.nodes
        → AreOfOneKill D.seen D.may_leave opening disks.items
        → MatchResult result (λ r. IsReached (opened_with r.0)) (IfAges (λ _ _. ⊥)) }
    ensures fresh { AreFresh D.seen shape disks.items
        → MatchResult result (λ r. IsReached (opened_with r.0)) (IfAges (λ _ _. ⊥)) }
    ensures left { (w : World) → AreLeftOn D.seen shape w disks.items
        → IfOk result (λ r. IsReached (opened_with r.0)) }
    ensures kept { (w : World) → AreLeftOn D.seen shape w disks.items
        → AreHeldOn D.seen shape w disks.items → IfErr result (IfAges (λ _ _. ⊥)) }
    ensures copies { (steps : List Step) → AreCopiesOn D.seen shape steps disks.items
        → IfOk result (λ r. IsReached (opened_with r.0)) }
    ensures begun { IfOk result (λ r. HaveBegun r.1.items) }
    ensures new { IfOk result (λ r. All IsNew r.1.items) }
    ensures made { IfOk result (λ r. IsMade
        (world_of (cores (map (λ c. c.node) r.1.items))) watches r.0
        (map (λ c. c.seat) r.1.items) r.2.items) }
{
    let (nodes, stores) = find(alloc, shape, &mut disks, saves)?;
    match join(alloc, shape, nodes, stores, watches) {
        Ok(opened) => Ok(opened),
        Err(_) => Err(Unopened::Memory),
    }
}
