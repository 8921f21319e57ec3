//! A collection in a space whose cells are all in the hands of one thread. Each cell has turns, as
//! a worker gives them to it, until one of them has to be saved; the caller stores the images.
ghost use Rattle.std.specs.Prelude.{◌≡◌, ◌<◌, IsTrue, length};
ghost use Rattle.c_handles.specs.Collecting as space;
ghost use Rattle.c_handles.specs.Collecting.{AreSaved, AreSwept, Collects, Counts, Ends};
ghost use Rattle.c_handles.specs.Collecting.{HasUnsaved, HasUnswept, ReceivesAll, ReceivesFrom};
ghost use Rattle.c_handles.specs.Collecting.{Round, Rounds, Says, SendsAll, SendsTo, Turn, Works};
ghost use Rattle.c_handles.specs.Collecting.{helds};
ghost use Rattle.c_handles.specs.Garbage.{Collected};

use crate::cell_handle::CellHandle;
use c_values::{CWork, Fault};
use ids::{Refusal, WINDOW};
use model::{Answer, Event};
use std::alloc::Global;

// The most rounds of one call: in them, a cell offers each frame of a window, and its
// acknowledgement.
const ROUNDS: u8 = WINDOW + 1;

// Whether a new message was received.
fn is_new(receipt: &Result<Answer, Fault>) -> bool {
    matches!(receipt, Ok(Answer::Received))
}

// Whether work was done.
fn has_worked(work: &CWork) -> bool {
    work.scanned > 0 || work.passed > 0 || work.swept > 0
}

// What a receipt means to the collection. Without a frame there was nothing to receive. One that is
// out of order is lost, and its sender offers it again.
fn received(receipt: Result<Answer, Fault>) -> Result<(), Fault>
    ensures { result ≡ space.received receipt }
{
    match receipt {
        Ok(_) | Err(Fault::Nothing | Fault::Refused(Refusal::OutOfOrder)) => Ok(()),
        Err(fault) => Err(fault),
    }
}

// The node receives from another one. This and the next calls note whether anything new happened.
fn receive(
    alloc: Global,
    cells: &mut [CellHandle],
    node: u8,
    from: u8,
    is_busy: &mut bool,
) -> Result<(), Fault>
    requires { node < length cells.old }
    ensures width { length cells.new ≡ length cells.old }
    ensures does { ReceivesFrom node from (helds cells.old) (helds cells.new) result }
{
    if node == from {
        return Ok(());
    }
    let receipt = cells[usize::from(node)].receive(alloc, from);
    *is_busy |= is_new(&receipt);
    received(receipt)
}

fn receive_all(
    alloc: Global,
    cells: &mut [CellHandle],
    node: u8,
    count: u8,
    is_busy: &mut bool,
) -> Result<(), Fault>
    requires { node < length cells.old }
    ensures width { length cells.new ≡ length cells.old }
    ensures does { ReceivesAll count node (helds cells.old) (helds cells.new) result }
{
    for from in 0..count {
        receive(alloc, cells, node, from, is_busy)?;
    }
    Ok(())
}

// The node scans all grey objects, passes the token, and sweeps all slots.
fn work(alloc: Global, cells: &mut [CellHandle], node: u8, is_busy: &mut bool) -> Result<(), Fault>
    requires { node < length cells.old }
    ensures width { length cells.new ≡ length cells.old }
    ensures does { Works node (helds cells.old) (helds cells.new) result }
{
    let mut done = CWork::NONE;
    let worked = cells[usize::from(node)].work(alloc, u32::MAX, u32::MAX, &mut done);
    *is_busy |= has_worked(&done);
    worked
}

// The node sends to another one.
fn send(alloc: Global, cells: &mut [CellHandle], node: u8, to: u8) -> Result<(), Fault>
    requires { node < length cells.old }
    ensures width { length cells.new ≡ length cells.old }
    ensures does { SendsTo node to (helds cells.old) (helds cells.new) result }
{
    if node == to {
        return Ok(());
    }
    match cells[usize::from(node)].send(alloc, to) {
        Ok(_) => Ok(()),
        Err(fault) => Err(fault),
    }
}

fn send_all(alloc: Global, cells: &mut [CellHandle], node: u8, count: u8) -> Result<(), Fault>
    requires { node < length cells.old }
    ensures width { length cells.new ≡ length cells.old }
    ensures does { SendsAll count node (helds cells.old) (helds cells.new) result }
{
    for to in 0..count {
        send(alloc, cells, node, to)?;
    }
    Ok(())
}

// A node's turn.
fn turn(
    alloc: Global,
    cells: &mut [CellHandle],
    node: u8,
    count: u8,
    is_busy: &mut bool,
) -> Result<(), Fault>
    requires { node < length cells.old }
    ensures width { length cells.new ≡ length cells.old }
    ensures does { Turn count node (helds cells.old) (helds cells.new) result }
{
    receive_all(alloc, cells, node, count, is_busy)?;
    work(alloc, cells, node, is_busy)?;
    send_all(alloc, cells, node, count)
}

// A turn of each node.
fn round(
    alloc: Global,
    cells: &mut [CellHandle],
    count: u8,
    is_busy: &mut bool,
) -> Result<(), Fault>
    requires { count ≡ length cells.old }
    ensures width { length cells.new ≡ length cells.old }
    ensures does { Round count (helds cells.old) (helds cells.new) result }
{
    for node in 0..count {
        turn(alloc, cells, node, count, is_busy)?;
    }
    Ok(())
}

// Whether the cell has unsaved events.
fn has_unsaved(alloc: Global, cell: &mut CellHandle) -> bool
    ensures same { cell.new.held ≡ cell.old.held }
    ensures is { result ≡ space.is_unsaved cell.old.held }
{
    match cell.is_unsaved(alloc) {
        Ok(is_unsaved) => is_unsaved,
        Err(_) => false,
    }
}

// Whether some cell has unsaved events.
fn is_unsaved(alloc: Global, cells: &mut [CellHandle], count: u8) -> bool
    requires { count ≡ length cells.old }
    ensures width { length cells.new ≡ length cells.old }
    ensures same { helds cells.new ≡ helds cells.old }
    ensures says { Says result (HasUnsaved (helds cells.old)) (AreSaved (helds cells.old)) }
{
    for node in 0..count {
        if has_unsaved(alloc, &mut cells[usize::from(node)]) {
            return true;
        }
    }
    false
}

// Whether its node has swept this cycle or a later one.
fn has_swept(alloc: Global, cell: &mut CellHandle, cycle: u64) -> bool
    ensures same { cell.new.held ≡ cell.old.held }
    ensures is { result ≡ space.has_swept cycle cell.old.held }
{
    match cell.state(alloc) {
        Ok(state) => cycle <= state.swept,
        Err(_) => false,
    }
}

// Whether each node has swept this cycle or a later one.
fn is_swept(alloc: Global, cells: &mut [CellHandle], count: u8, cycle: u64) -> bool
    requires { count ≡ length cells.old }
    ensures width { length cells.new ≡ length cells.old }
    ensures same { helds cells.new ≡ helds cells.old }
    ensures says { Says result (AreSwept cycle (helds cells.old))
        (HasUnswept cycle (helds cells.old)) }
{
    for node in 0..count {
        if !has_swept(alloc, &mut cells[usize::from(node)], cycle) {
            return false;
        }
    }
    true
}

// Whether nothing new happens, and a cell has to be saved.
fn is_enough(alloc: Global, cells: &mut [CellHandle], count: u8, is_busy: bool) -> bool
    requires { count ≡ length cells.old }
    ensures width { length cells.new ≡ length cells.old }
    ensures same { helds cells.new ≡ helds cells.old }
    ensures unsaved { IsTrue result → HasUnsaved (helds cells.old) }
{
    !is_busy && is_unsaved(alloc, cells, count)
}

// Rounds, until nothing new happens any more and a node has to be saved.
fn rounds(alloc: Global, cells: &mut [CellHandle], count: u8) -> Result<(), Fault>
    requires { count ≡ length cells.old }
    ensures width { length cells.new ≡ length cells.old }
    ensures does { Rounds count (helds cells.old) (helds cells.new) result }
{
    for _round in 0..ROUNDS {
        let mut is_busy = false;
        round(alloc, cells, count, &mut is_busy)?;
        if is_enough(alloc, cells, count, is_busy) {
            return Ok(());
        }
    }
    Ok(())
}

// Whether nothing is left to be done. Otherwise a node has to be saved, after node 0 has begun a
// cycle if need be.
fn end(alloc: Global, cells: &mut [CellHandle], count: u8, cycle: u64) -> Result<bool, Fault>
    requires all { count ≡ length cells.old }
    requires some { 0 < count }
    ensures { Ends cycle (helds cells.old) (helds cells.new) result }
{
    if is_unsaved(alloc, cells, count) {
        return Ok(false);
    }
    if is_swept(alloc, cells, count, cycle) {
        return Ok(true);
    }
    match cells[0].act(alloc, Event::Begin) {
        Ok(_) => Ok(false),
        Err(fault) => Err(fault),
    }
}

// Whether the handle holds the cell of this node, of a space of this many nodes.
fn is_in_place(alloc: Global, cell: &mut CellHandle, node: u8, count: u8) -> bool
    ensures same { cell.new.held ≡ cell.old.held }
    ensures is { result ≡ space.is_in_place node count cell.old.held }
{
    match cell.state(alloc) {
        Ok(state) => state.own == node && state.shape.nodes() == count,
        Err(_) => false,
    }
}

// The number of cells, if they are those of all nodes, in order.
fn count_in_order(alloc: Global, cells: &mut [CellHandle]) -> Option<u8>
    ensures width { length cells.new ≡ length cells.old }
    ensures same { helds cells.new ≡ helds cells.old }
    ensures counts { Counts (helds cells.old) result }
{
    let Ok(count) = u8::try_from(cells.len()) else {
        return None;
    };
    for node in 0..count {
        if !is_in_place(alloc, &mut cells[usize::from(node)], node, count) {
            return None;
        }
    }
    if count > 0 { Some(count) } else { None }
}

// Makes the rounds, and what comes after them.
fn collect_in_order(
    alloc: Global,
    cells: &mut [CellHandle],
    count: u8,
    cycle: u64,
) -> Result<bool, Fault>
    requires all { count ≡ length cells.old }
    requires some { 0 < count }
    ensures { Collects cycle (helds cells.old) (helds cells.new) result }
{
    rounds(alloc, cells, count)?;
    end(alloc, cells, count, cycle)
}

/// Collects until a cell has to be saved, and returns false; or true, once all cells are saved and
/// each node has swept this cycle or a later one. The cells are those of all nodes, in order; else
/// the call fails with `BadArgument`, and nothing happens.
///
/// Each cell has turns, 33 at most: it receives from each other one, scans all grey objects, passes
/// the token, sweeps all slots, and sends to each other one. They end earlier if nothing new
/// happened in the last one and a cell has to be saved. If none has to be, and a node hasn't swept
/// the cycle, node 0 begins one.
///
/// Once it returns true, what was garbage before node 0 began the cycle is gone, saved or not; if
/// no cell was reopened since, and none resolved a reference.
///
/// Fails as the calls of cells do, after what was done before. A frame that is out of order is no
/// failure, since its sender offers it again.
pub fn collect(alloc: Global, cells: &mut [CellHandle], cycle: u64) -> Result<bool, Fault>
    ensures { Collected cycle (helds cells.old) (helds cells.new) result }
{
    match count_in_order(alloc, cells) {
        Some(count) => collect_in_order(alloc, cells, count, cycle),
        None => Err(Fault::BadArgument),
    }
}
