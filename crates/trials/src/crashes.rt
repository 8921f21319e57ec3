//! What a disk opens to, and what crashes may leave of a disk in memory.
use crate::case::Case;
use disk::{Disk, MemoryDisk};
use disk_shelf::{check_seals, is_blank};
use ids::{Refusal, Saves};
use node_store::read_node;
use std::alloc::{AllocError, Global};

/// For each byte with which a crash may fill what wasn't synced, what the disk then opens to: each
/// outcome with the number of bytes for which it comes, in the order of the first.
pub(crate) fn put_crashes(alloc: Global, disk: &MemoryDisk, case: &mut Case) {
    let mut found = Vec::new(alloc);
    for fill in 0..=u8::MAX {
        if count_crash(alloc, disk, fill, &mut found).is_err() {
            case.lacks_memory();
        }
    }
    for (outcome, times) in &found {
        case.show(&format_args!("{times} {outcome}"));
    }
}

// Counts what the disk opens to after a crash.
fn count_crash(
    alloc: Global,
    disk: &MemoryDisk,
    fill: u8,
    found: &mut Vec<(String, u64)>,
) -> Result<(), Refusal> {
    let mut left = disk.after_crash(fill)?;
    count(found, opens_to(alloc, &mut left)?)
}

// Counts an outcome.
fn count(found: &mut Vec<(String, u64)>, outcome: String) -> Result<(), Refusal> {
    for (known, times) in found.iter_mut() {
        if *known == outcome {
            *times = times.saturating_add(1);
            return Ok(());
        }
    }
    found.push((outcome, 1))?;
    Ok(())
}

/// What a disk opens to, as text: `blank`, the image of the node, or the refusal.
pub(crate) fn opens_to<D: Disk>(alloc: Global, disk: &mut D) -> Result<String, AllocError> {
    match found_on(alloc, disk) {
        Ok(None) => String::from_str(alloc, "blank"),
        Ok(Some(image)) => hex::encode_upper(alloc, &image),
        Err(refusal) => format!(in alloc; "refused {refusal}"),
    }
}

// The image of the node that is found on a disk, with a log or without one, unless the disk is
// blank.
fn found_on<D: Disk>(alloc: Global, disk: &mut D) -> Result<Option<Vec<u8>>, Refusal> {
    if is_blank(disk) == Ok(true) {
        return Ok(None);
    }
    let _digest = check_seals(alloc, disk)?;
    let (_place, node) = read_node(alloc, disk, Saves::Images)?;
    let image = image::to_bytes(alloc, &node);
    drop(node);
    Ok(Some(image?))
}
