//! Blocks of slots, some of which are flagged: those that may have an object of some kind. What
//! looks for such objects skips the other blocks. A flag stays when its object goes.
ghost use Rattle.std.specs.Prelude.{◌≡◌, ℕ, ◌<◌, ◌≤◌, ◌^◌, true, false, length, IsTrue, slice_index_or, slice_set};
ghost use Rattle.heap.specs.Blocks.{is_flagged, is_listed, Flags};

use std::alloc::Global;

/// How many slots a block has.
pub(crate) const BLOCK: u32 = 64;

/// Which blocks are flagged.
#[derive(Drop)]
pub(crate) enum Blocks {
    /// All blocks.
    All,
    /// Those of the first blocks that this says, and none behind them.
    Listed(Vec<bool>),
}

impl Blocks {
    /// No block is flagged. It allocates nothing.
    pub(crate) fn none(alloc: Global) -> Blocks
        ensures { (k : ℕ) → is_flagged result k ≡ false }
    {
        Blocks::Listed(Vec::new(alloc))
    }

    /// Whether the slot is in a flagged block.
    pub(crate) fn has(&self, slot: u32) -> bool
        ensures { result ≡ is_flagged self.now slot }
    {
        match self {
            Blocks::All => true,
            Blocks::Listed(flags) => match flags.get((slot / BLOCK) as usize) {
                Some(flag) => *flag,
                None => false,
            },
        }
    }

    /// The block of the slot is flagged, if it wasn't. If there is no memory for the flag, all
    /// blocks are.
    #[inline(always)]
    pub(crate) fn note(&mut self, slot: u32)
        ensures { Flags self.old self.new slot }
    {
        let is_noted = match self {
            Blocks::All => true,
            Blocks::Listed(flags) => flag(flags, (slot / BLOCK) as usize),
        };
        if !is_noted {
            *self = Blocks::All;
        }
    }

    /// The same under a condition.
    #[inline(always)]
    pub(crate) fn note_if(&mut self, is_noted: bool, slot: u32)
        ensures noted { is_noted ≡ true → is_flagged self.new slot ≡ true }
        ensures keeps { (k : ℕ) → is_flagged self.old k ≡ true → is_flagged self.new k ≡ true }
    {
        if is_noted {
            self.note(slot);
        }
    }

    /// No block is flagged any more. It allocates nothing.
    pub(crate) fn clear(&mut self, alloc: Global)
        ensures { (k : ℕ) → is_flagged self.new k ≡ false }
    {
        match self {
            Blocks::All => *self = Blocks::none(alloc),
            Blocks::Listed(flags) => flags.clear(),
        }
    }

    /// Whether it is known without a search that no block is flagged.
    pub(crate) fn is_empty(&self) -> bool
        ensures { result ≡ true → (k : ℕ) → is_flagged self.now k ≡ false }
    {
        match self {
            Blocks::All => false,
            Blocks::Listed(flags) => flags.is_empty(),
        }
    }

    /// The first slot from `slot` on that is in a flagged block, or `end` if none comes before it.
    pub(crate) fn next(&self, slot: u32, end: u32) -> u32
        requires { slot ≤ end }
        ensures bounds { (slot ≤ result) × (result ≤ end) }
        ensures skips { (k : ℕ) → slot ≤ k → k < result → is_flagged self.now k ≡ false }
    {
        let mut next = slot;
        while next < end && !self.has(next) {
            next += (BLOCK - next % BLOCK).min(end - next);
        }
        next
    }
}

// Flags a block, and returns whether there was memory for that.
#[inline(never)]
fn flag(flags: &mut Vec<bool>, block: usize) -> bool
    requires { block < 2 ^ 32 }
    ensures noted { IsTrue result → is_listed flags.new.items block ≡ true }
    ensures keeps { (i : ℕ) → is_listed flags.old.items i ≡ true
        → is_listed flags.new.items i ≡ true }
{
    if block >= flags.len() && flags.resize(block + 1, false).is_err() {
        return false;
    }
    flags[block] = true;
    true
}
