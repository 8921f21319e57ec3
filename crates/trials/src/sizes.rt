//! The size of a space and how it saves, the text of its configuration, and its disks in memory.
use disk::MemoryDisk;
use ids::Saves;
use std::alloc::{AllocError, Global};
use supervisor::{Config, OpenFault};

/// How many nodes a space has, each with this many registers and slots, how many turns its workers
/// take at most, and what a save writes.
#[derive(Clone, Copy)]
pub(crate) struct Size {
    pub nodes: u8,
    pub registers: u16,
    pub slots: u32,
    pub turns: u32,
    pub saves: Saves,
}

/// Two nodes with three registers and eight slots each.
pub(crate) const PAIR: Size = Size {
    nodes: 2,
    registers: 3,
    slots: 8,
    turns: 1,
    saves: Saves::Images,
};

impl Size {
    /// The text of a configuration of this size, without a folder.
    pub(crate) fn text(self, alloc: Global) -> Result<String, AllocError> {
        let Size {
            nodes,
            registers,
            slots,
            turns,
            saves,
        } = self;
        let way = match saves {
            Saves::Images => "images",
            Saves::Events => "events",
        };
        format!(in alloc;
            "nodes = {nodes}\nregisters = {registers}\nslots = {slots}\nturns = {turns}\n\
            saves = \"{way}\"\n"
        )
    }
}

/// This many blank disks in memory.
pub(crate) fn blank_disks(alloc: Global, nodes: u8) -> Result<Vec<MemoryDisk>, AllocError> {
    let mut disks = Vec::new(alloc);
    for _ in 0..nodes {
        disks.push(MemoryDisk::new(alloc))?;
    }
    Ok(disks)
}

/// The configuration of a space of this size.
pub(crate) fn config_of(alloc: Global, size: Size) -> Result<Config, OpenFault> {
    match size.text(alloc) {
        Ok(text) => Config::from_text(alloc, text.as_str()),
        Err(_) => Err(OpenFault::Memory),
    }
}
