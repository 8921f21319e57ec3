//! Spaces of a case, on disks in memory or in files.
ghost use Rattle.std.specs.Prelude.{◌≡◌, false, is_some, IfOk};

use crate::case::Case;
use crate::killed::outlived;
use crate::once::once;
use crate::served::show_served;
use crate::sizes::{PAIR, Size, blank_disks, config_of};
use crate::space::meet;
use disk::{Disk, FileDisk, MemoryDisk};
use ids::Refusal;
use std::alloc::{AllocError, Global};
use std::fs::File;
use std::rt::Files;
use std::sync::Wait;
use std::thread::Threads;
use std::time::Clock;
use supervisor::{OpenFault, Space};

/// A disk that a case makes.
pub(crate) trait Made: Disk {
    /// The disks of this many nodes, in a folder or in memory. In memory, calls of them may fail.
    fn make<R: Files<File = File>>(
        rt: &R,
        alloc: Global,
        nodes: u8,
        folder: &str,
        failing: &[(usize, u64)],
    ) -> Result<Vec<Self>, Refusal>;
}

impl Made for MemoryDisk {
    fn make<R: Files<File = File>>(
        _rt: &R,
        alloc: Global,
        nodes: u8,
        _folder: &str,
        failing: &[(usize, u64)],
    ) -> Result<Vec<MemoryDisk>, Refusal> {
        let mut disks = blank_disks(alloc, nodes)?;
        for (node, call) in failing {
            if let Some(disk) = disks.get_mut(*node) {
                disk.fail_once(*call);
            }
        }
        Ok(disks)
    }
}

impl Made for FileDisk {
    fn make<R: Files<File = File>>(
        rt: &R,
        alloc: Global,
        nodes: u8,
        folder: &str,
        _failing: &[(usize, u64)],
    ) -> Result<Vec<FileDisk>, Refusal> {
        FileDisk::each_in(rt, alloc, folder, nodes, true)
    }
}

/// A new space of this size.
pub(crate) fn opened<R: Files<File = File>, D: Made + Drop>(
    rt: &R,
    alloc: Global,
    size: Size,
    folder: &str,
    failing: &[(usize, u64)],
) -> Result<Space<D>, OpenFault>
    ensures { IfOk result (λ s. is_some s.team ≡ false) }
{
    let config = config_of(alloc, size)?;
    match D::make(rt, alloc, size.nodes, folder, failing) {
        Ok(disks) => Space::open(alloc, &config, disks),
        Err(Refusal::Memory) => Err(OpenFault::Memory),
        Err(refusal) => Err(OpenFault::Failed { node: 0, refusal }),
    }
}

/// Runs the code of docs/RATTLE.md in a space of two nodes.
pub(crate) fn show<R>(rt: &R, alloc: Global, case: &mut Case)
where
    R: Clock + Threads + Wait + Clone + Send + Sync + Drop + 'static,
{
    let size = Size {
        turns: case.number(1),
        ..PAIR
    };
    let Ok((text, disks)) = begun(alloc, size) else {
        case.lacks_memory();
        return;
    };
    if case.verb() == "once" {
        case.debug(&once(rt, alloc, text.as_str(), disks));
        return;
    }
    if case.verb() == "served" {
        show_served(rt, alloc, text.as_str(), disks, case);
        return;
    }
    match meet(rt, alloc, text.as_str(), disks) {
        Some(reports) => case.debug(&Some(reports.len())),
        None => case.text("None"),
    }
}

/// Kills a space of two nodes in a save, and reads in the next one what was saved.
pub(crate) fn show_killed<R: Wait>(rt: &R, alloc: Global, case: &mut Case) {
    let (call, fill) = (case.number(1), case.number(2));
    let (Ok(config), Ok(disks)) = (config_of(alloc, PAIR), blank_disks(alloc, PAIR.nodes)) else {
        case.lacks_memory();
        return;
    };
    match outlived(rt, alloc, &config, disks, call, fill) {
        Some(answer) => case.answer(answer),
        None => case.text("None"),
    }
}

// The text of a configuration, and blank disks for it.
fn begun(alloc: Global, size: Size) -> Result<(String, Vec<MemoryDisk>), AllocError> {
    let text = size.text(alloc)?;
    Ok((text, blank_disks(alloc, size.nodes)?))
}
