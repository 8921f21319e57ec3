//! A space that is killed while one of its nodes is saved, and a second one that continues on what
//! that leaves of its disks. The contracts of `kill` and `continued` say, for any number of such
//! spaces one after another, that all begin in worlds that a run reaches. A case runs it.
ghost use Rattle.std.specs.Prelude.{◌≡◌, ◌<◌, ◌++◌, ◌∷◌, [], IfSome, length};
ghost use Rattle.disk.specs.Memory.{held_by, left_by};
ghost use Rattle.wire.specs.Readers.{opened_with, IsSame, IsSeatOf};
ghost use Rattle.cell.specs.Cells.{HoldsEither, IsSound};
ghost use Rattle.cell.specs.Closing.{AreOfOneKill};
ghost use Rattle.cell.specs.Moments.{EachCell};
ghost use Rattle.cell.specs.Reached.{IsReached};
ghost use Rattle.wire.specs.Rule.{nodes_of};
ghost use Rattle.trials.specs.Chains.{AreLeftBy, CanBegin, IsCellAt};

use cell::{Cell, Unnamed, open, survey};
use disk::{Disk, MemoryDisk};
use ids::{Refusal, Saves, Shape};
use model::{Answer, Event};
use std::alloc::Global;
use std::sync::Wait;
use supervisor::{Config, Opened};
use wire::Wire;

// Lets a node make an object, and saves it on a disk that fails from this call on.
fn stop_in_save(wire: &Wire, cell: &mut Cell<MemoryDisk>, call: u64)
    requires wire { IsSeatOf wire.now cell.old.seat }
    ensures same { IsSame cell.old.seat cell.new.seat }
    ensures origin { cell.new.origin ≡ cell.old.origin }
{
    let object = Event::Alloc {
        register: 0,
        places: 2,
    };
    let _answer = cell.act(wire, &object);
    cell.fail_from(call);
    let _saved = cell.save(wire);
}

// The disk of a cell as a kill leaves it, if each byte that wasn't synced became `fill`.
fn left_of(cell: &Cell<MemoryDisk>, fill: u8) -> Option<MemoryDisk>
    ensures sound { IsSound left_by cell.now }
    ensures left { IfSome result (λ d. HoldsEither cell.now (held_by d)) }
{
    // Called for its contract.
    let _node = cell.node();
    match cell.after_crash(fill) {
        Ok(disk) => Some(disk),
        Err(_) => None,
    }
}

// Adds a disk to a list.
fn add(disks: &mut Vec<MemoryDisk>, disk: MemoryDisk) -> Option<()>
    ensures { IfSome result (λ _. disks.new.items ≡ disks.old.items ++ disk ∷ []) }
{
    match disks.push(disk) {
        Ok(()) => Some(()),
        Err(_) => None,
    }
}

// The disks of these cells as a kill leaves them.
fn all_left(alloc: Global, cells: &[Cell<MemoryDisk>], fill: u8) -> Option<Vec<MemoryDisk>>
    ensures { IfSome result (λ v. AreLeftBy held_by left_by cells.now v.items) }
{
    let mut disks = Vec::new(alloc);
    for place in 0..cells.len() {
        let disk = left_of(&cells[place], fill)?;
        add(&mut disks, disk)?;
    }
    Some(disks)
}

// Stops the first cell in a save.
fn stop_first(wire: &Wire, cells: &mut [Cell<MemoryDisk>], call: u64)
    requires some { 0 < length cells.old }
    requires cells { EachCell (IsCellAt wire.now) cells.old }
    ensures count { length cells.new ≡ length cells.old }
    ensures cells { EachCell (IsCellAt wire.now) cells.new }
{
    stop_in_save(wire, &mut cells[0], call);
}

// Kills the cells while the first one is saved: its disk fails from this call on, and each byte
// that wasn't synced becomes `fill`. Returns what that leaves of the disks.
fn kill_all(
    alloc: Global,
    wire: &Wire,
    cells: &mut [Cell<MemoryDisk>],
    call: u64,
    fill: u8,
) -> Option<Vec<MemoryDisk>>
    requires some { 0 < length cells.old }
    requires cells { EachCell (IsCellAt wire.now) cells.old }
    requires count { length cells.old ≡ nodes_of (opened_with wire.now) }
    ensures { IfSome result (λ v.
        AreOfOneKill held_by left_by (opened_with wire.now) v.items) }
{
    stop_first(wire, cells, call);
    survey(wire, cells);
    all_left(alloc, cells, fill)
}

// Opens the cells of a space on these disks, and kills them; see `kill_all`. A next space can
// continue on what that leaves of the disks, if this one could on these.
fn kill(
    alloc: Global,
    shape: Shape,
    disks: Vec<MemoryDisk>,
    call: u64,
    fill: u8,
) -> Option<Vec<MemoryDisk>>
    ensures { CanBegin held_by left_by shape disks.items
        → IfSome result (λ v. CanBegin held_by left_by shape v.items) }
{
    // Called for its contract.
    let _nodes = shape.nodes();
    let Ok((wire, mut cells, _watches)) = open(alloc, shape, disks, 0, Saves::Images) else {
        return None;
    };
    kill_all(alloc, &wire, cells.as_mut_slice(), call, fill)
}

// Opens a space on these disks. If they are new, or a space left them that began in a world which a
// run reaches, then this one begins in such a world too.
fn continued<D: Disk + Drop>(alloc: Global, config: &Config, disks: Vec<D>) -> Option<Opened<D>>
    ensures { CanBegin D.seen D.may_leave config.now.shape disks.items
        → IfSome result (λ s. IsReached (opened_with s.wire)) }
{
    match Opened::open(alloc, config, disks) {
        Ok(opened) => Some(opened),
        Err(_) => None,
    }
}

/// Node 0 makes an object and is killed while it is saved; see `kill`. The answer that its program
/// gets in the next space when it reads the object's word.
pub(crate) fn outlived<R: Wait>(
    rt: &R,
    alloc: Global,
    config: &Config,
    disks: Vec<MemoryDisk>,
    call: u64,
    fill: u8,
) -> Option<Result<Answer, Refusal>> {
    let disks = kill(alloc, config.shape, disks, call, fill)?;
    let opened = continued(alloc, config, disks)?;
    let space = opened.share::<Unnamed>().ok()?;
    let program = space.program(0)?;
    Some(program.act(rt, &Event::Word { object: 0 }))
}
