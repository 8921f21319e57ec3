//! Reads a node from its disk in memory.
use crate::case::Case;
use disk::MemoryDisk;
use disk_journal::Journal;
use ids::Refusal;
use node_store::Images;
use std::alloc::Global;

/// `journal NODE`: opens a copy of the disk, and prints the image of the node that it holds.
pub(crate) fn put_read(alloc: Global, disk: &MemoryDisk, case: &mut Case) {
    match read(alloc, disk) {
        Ok(image) => case.put_bytes(&image),
        Err(refusal) => case.refused(refusal),
    }
}

// The image of the node on the disk, after the events of its log.
fn read(alloc: Global, disk: &MemoryDisk) -> Result<Vec<u8>, Refusal> {
    let copy = disk.after_crash(0)?;
    let (journal, node) = Journal::<MemoryDisk, Images>::open(alloc, copy, false)?;
    drop(journal);
    let image = image::to_bytes(alloc, &node);
    drop(node);
    image
}
