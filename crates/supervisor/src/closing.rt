//! What a space leaves: its cells, once no thread uses them any more, and their disks as they are
//! at one moment.
ghost use Rattle.std.specs.Prelude.{◌≡◌, ◌<◌, ℕ, false, IfErr, IfNone, IfOk, IfSome, IsTrue};
ghost use Rattle.std.specs.Prelude.{Some, length, map, vec_len};
ghost use Rattle.std.specs.Arc.{arc_value};
ghost use Rattle.wire.specs.Readers.{known, opened_with, seat_node, IsSeatOf};
ghost use Rattle.wire.specs.Rule.{nodes_of};
ghost use Rattle.cell.specs.Cells.{CellView, IsSound};
ghost use Rattle.cell.specs.Closing.{AreOfOneMoment};
ghost use Rattle.cell.specs.Moments.{EachCell, HaveLearned};
ghost use Rattle.cell.specs.Names.{name_of, IsNamed, seat_name};
ghost use Rattle.supervisor.specs.Closing.{IsBack, IsFirstOther, IsRow, IsWhy};
ghost use Rattle.supervisor.specs.declared.closing.CloseFault.TheVariants as fault;

use cell::{Cell, Naming, SharedOn, survey};
use disk::Disk;
use std::alloc::Global;
use std::snapshot::Snapshot;
use std::sync::Arc;
use wire::Wire;

/// The disks of a space, in order, as its nodes left them at one moment: one list of events leads
/// to what all of them hold. A space that is opened on them continues from that moment.
#[derive(Drop)]
pub struct Closed<D: Disk> {
    pub disks: Vec<D>,
    // The wire of the space.
    pub(crate) of: Snapshot<Arc<Wire>>,
    ghost once: { ∥ AreOfOneMoment D.may_leave (opened_with (arc_value of.value)) disks.items ∥₁ },
}

/// Why a space didn't give out its disks.
#[derive(Clone, Copy, Debug, PartialEq, Eq)]
pub enum CloseFault {
    /// The cell of this node is closed, because its disk failed; those of the nodes before it are
    /// open. All cells came back. (The cell in this place might also be that of another node. No
    /// contract says that the cells are in order, but they are.)
    Closed { node: u8 },
    /// Something still uses the cell of this node. Those of the nodes before it came back.
    Used { node: u8 },
    /// An allocation failed.
    Memory,
}

/// A space that didn't give out its disks, and why. Its cells, as far as they came back, are in
/// order, from that of node 0 on. [`Cell::into_disk`] gives the disk of one.
pub struct Unclosed<D: Disk> {
    pub fault: CloseFault,
    pub cells: Vec<Cell<D>>,
}

// Written out, so that the crates above need not prove again how each field is dropped.
impl<D: Disk + Drop> Drop for Unclosed<D> {
    fn drop(self) {
        let Unclosed { fault: _, cells: _ } = self;
    }
}

// The cells that threads shared, in order, or those before the first one that is still used.
fn take_cells<D: Disk + Drop, W: Naming>(
    alloc: Global,
    nodes: u8,
    mut shared: Vec<Arc<SharedOn<D, W>>>,
) -> Result<Vec<Cell<D>>, Unclosed<D>>
    requires { vec_len shared ≡ nodes }
    ensures count { IfOk result (λ v. vec_len v ≡ nodes) }
    ensures back { IfOk result (λ v. EachCell (IsBack W.wire W.begun) v.items) }
    ensures why { IfErr result (λ u. IsWhy nodes u.fault u.cells.items) }
    ensures still_back { IfErr result (λ u. EachCell (IsBack W.wire W.begun) u.cells.items) }
{
    let mut cells = Vec::new(alloc);
    if cells.reserve(usize::from(nodes)).is_err() {
        return Err(Unclosed {
            fault: CloseFault::Memory,
            cells,
        });
    }
    for node in 0..nodes {
        let Some(shared) = Arc::into_inner(shared.remove(0)) else {
            let fault = CloseFault::Used { node };
            return Err(Unclosed { fault, cells });
        };
        cells.push_reserved(shared.into_cell());
    }
    Ok(cells)
}

// Whether the cell in this place is open, and its node has this number.
fn is_row<D: Disk>(cell: &Cell<D>, place: u8) -> bool
    ensures row { IsTrue result → IsRow place cell.now }
    ensures other { result ≡ false → IsRow place cell.now → ⊥ }
{
    cell.is_open() && cell.node().state().own == place
}

// The first node whose cell isn't open in its place.
fn first_other<D: Disk>(cells: &[Cell<D>], nodes: u8) -> Option<u8>
    requires { length cells.now ≡ nodes }
    ensures rows { IfNone result (EachCell IsRow cells.now) }
    ensures other { IfSome result (λ node. IsFirstOther cells.now node) }
{
    for place in 0..nodes {
        if !is_row(&cells[usize::from(place)], place) {
            return Some(place);
        }
    }
    None
}

// The disks of cells. If there is no memory for their list, the cells come back.
fn take_disks<D: Disk + Drop>(alloc: Global, mut cells: Vec<Cell<D>>) -> Result<Vec<D>, Unclosed<D>>
    ensures disks { IfOk result (λ v. map (λ c. c.disk) cells.items ≡ v.items) }
    ensures sound { IfOk result (λ _. EachCell (λ k c. IsSound D.may_leave c) cells.items) }
    ensures memory { IfErr result (λ u. u.fault ≡ fault.Memory) }
    ensures back { IfErr result (λ u. u.cells ≡ cells) }
{
    let mut disks = match Vec::with_capacity(alloc, cells.len()) {
        Ok(disks) => disks,
        Err(_) => {
            let fault = CloseFault::Memory;
            return Err(Unclosed { fault, cells });
        }
    };
    for _ in 0..cells.len() {
        disks.push_reserved(cells.remove(0).into_disk());
    }
    Ok(disks)
}

// The disks of the cells of a wire, which no thread uses any more, at one moment.
fn take_at_once<D: Disk + Drop, W: Naming>(
    alloc: Global,
    nodes: u8,
    wire: &Wire,
    shared: Vec<Arc<SharedOn<D, W>>>,
) -> Result<Vec<D>, Unclosed<D>>
    requires named { W.wire ≡ Some (name_of wire.now) }
    requires begun { IsTrue W.begun }
    requires count { vec_len shared ≡ nodes }
    requires wide { nodes_of (opened_with wire.now) ≡ nodes }
    ensures once { IfOk result (λ v.
        AreOfOneMoment D.may_leave (opened_with wire.now) v.items) }
    ensures why { IfErr result (λ u. IsWhy nodes u.fault u.cells.items) }
    ensures back { IfErr result (λ u. EachCell (IsBack W.wire W.begun) u.cells.items) }
{
    let mut cells = take_cells(alloc, nodes, shared)?;
    if let Some(node) = first_other(cells.as_slice(), nodes) {
        let fault = CloseFault::Closed { node };
        return Err(Unclosed { fault, cells });
    }
    survey(wire, cells.as_mut_slice());
    take_disks(alloc, cells)
}

/// The disks of a space whose cells no thread uses any more, as they are at one moment; or why they
/// aren't given out, with the cells that came back.
pub(crate) fn close_cells<D: Disk + Drop, W: Naming>(
    alloc: Global,
    nodes: u8,
    wire: &Arc<Wire>,
    shared: Vec<Arc<SharedOn<D, W>>>,
) -> Result<Closed<D>, Unclosed<D>>
    requires named { W.wire ≡ Some (name_of (arc_value wire.now)) }
    requires begun { IsTrue W.begun }
    requires count { vec_len shared ≡ nodes }
    requires wide { nodes_of (opened_with (arc_value wire.now)) ≡ nodes }
    ensures wire { IfOk result (λ c. arc_value c.of.value ≡ arc_value wire.now) }
    ensures once { IfOk result (λ c.
        AreOfOneMoment D.may_leave (opened_with (arc_value wire.now)) c.disks.items) }
    ensures why { IfErr result (λ u. IsWhy nodes u.fault u.cells.items) }
    ensures back { IfErr result (λ u. EachCell (IsBack W.wire W.begun) u.cells.items) }
{
    let disks = take_at_once(alloc, nodes, wire, shared)?;
    Ok(Closed {
        disks,
        of: Snapshot::of(wire),
    })
}
