//! The slots of a folder, as the process has them that keeps a value there.
ghost use Rattle.std.specs.Prelude.{◌≡◌};
ghost use Rattle.slots.specs.Decisions.{after_entry, after_failure, after_last, after_stored};
ghost use Rattle.slots.specs.Decisions.{after_rewrite, after_whole, created, entry_place, fits};
ghost use Rattle.slots.specs.Decisions.{head_place, is_known, last_place, mark_of, opened};
ghost use Rattle.slots.specs.Decisions.{other, rewrite_of};
ghost use Rattle.slots.specs.Decisions.{unsure, whole_place, zeros_at};

use crate::opening::Found;
use crate::rewrite::Rewrite;

/// What is around a value: its head, and its seal.
pub const HEAD: u64 = 20;

pub const TAIL: u64 = 8;
/// What is before an entry.
pub const ENTRY_HEAD: u64 = 16;
/// No save has this number or a later one.
pub const NUMBERS: u64 = 1 << 48;
/// No file and no value has more bytes.
pub const MOST: u64 = 1 << 60;

/// Nothing is under way, and an entry may be added.
pub const IDLE: u8 = 0;
/// An entry is under way.
pub const ENTRY: u8 = 1;
/// A whole value is under way.
pub const WHOLE: u8 = 2;
/// The entry that ends a rewrite is under way, with the copies before it.
pub const LAST: u8 = 3;
/// The head of a rewrite is under way.
pub const TOP: u8 = 4;
/// A save has failed, so the next one is a whole value.
pub const DUE: u8 = 5;
/// Nobody knows what counts, and nothing is saved any more.
pub const UNSURE: u8 = 6;

/// The slots of an open folder. C keeps it, and reads it; only these calls change it.
#[repr(C)]
#[derive(Clone, Copy)]
pub struct Slots {
    /// The number of the last save, also of one that failed.
    pub number: u64,
    /// In the slot that counts: the offset of the next entry, the seal before it, the seal of the
    /// value, and how long the value is.
    pub end: u64,
    pub seal: u64,
    pub base: u64,
    pub length: u64,
    /// The same of the slot that counts once the save that is under way is stored.
    pub next_end: u64,
    pub next_base: u64,
    pub next_length: u64,
    /// How many saves and rewrites have written to the slot that doesn't count. A rewrite that was
    /// begun at another number is over.
    pub turns: u64,
    /// The slot that counts: 0 is the first one; any other number, the second one.
    pub counts: u8,
    /// What is under way: [`IDLE`] and the others.
    pub phase: u8,
}

/// The place of something that is written: its slot (0 or 1), its offset, and for a save its
/// number, and the seal before it with which its own begins (0 if it is a value).
#[repr(C)]
#[derive(Clone, Copy)]
pub struct Target {
    pub offset: u64,
    pub number: u64,
    pub before: u64,
    pub slot: u8,
}

/// A mark, which shows that a save was synced: its slot and offset, the number of the save, the
/// length of the value, and the seal of the value, with which the mark's own begins.
#[repr(C)]
#[derive(Clone, Copy)]
pub struct Mark {
    pub offset: u64,
    pub number: u64,
    pub length: u64,
    pub base: u64,
    pub slot: u8,
}

/// The slot that isn't this one.
pub fn other(slot: u8) -> u8
    ensures { result ≡ other slot }
{
    if slot == 0 { 1 } else { 0 }
}

impl Slots {
    /// Those of a new folder, in which nothing is saved. The first save is a whole value, in the
    /// first slot, and its number is the one after this.
    pub fn create(number: u64) -> Slots
        ensures { result ≡ created number }
    {
        Slots {
            number,
            end: 0,
            seal: 0,
            base: 0,
            length: 0,
            next_end: 0,
            next_base: 0,
            next_length: 0,
            turns: 0,
            counts: 1,
            phase: DUE,
        }
    }

    /// Those of a folder in which `choose` has found that this slot counts. What was found in it
    /// ends there; its last seal is this one, and its value has this seal and this length.
    ///
    /// Behind a value of the first version no entry is added.
    pub fn open(slot: u8, found: &Found, end: u64, seal: u64, base: u64, length: u64) -> Slots
        ensures { result ≡ opened slot found.now end seal base length }
    {
        Slots {
            number: found.number,
            end,
            seal,
            base,
            length,
            next_end: 0,
            next_base: 0,
            next_length: 0,
            turns: 0,
            counts: slot,
            phase: if found.version == 2 { IDLE } else { DUE },
        }
    }

    // Whether a save of this length has a number, and ends within what a file may have.
    fn fits(&self, end: u64, length: u64) -> bool
        ensures { result ≡ fits self.now end length }
    {
        self.number < NUMBERS && self.turns < NUMBERS && end <= MOST && length <= MOST
    }

    /// An entry of this length is to be saved. Says at what place; `None` if that can't be: a save
    /// is under way, or the next one has to be a whole value, or a limit is reached. Then nothing
    /// changes.
    pub fn entry(&mut self, length: u64) -> Option<Target>
        ensures place { result ≡ entry_place self.old length }
        ensures after { self.new ≡ after_entry self.old length }
    {
        if self.phase != IDLE || !self.fits(self.end, length) {
            return None;
        }
        self.phase = ENTRY;
        self.number += 1;
        self.next_end = self.end + (ENTRY_HEAD + length + TAIL);
        Some(Target {
            offset: self.end,
            number: self.number,
            before: self.seal,
            slot: self.counts,
        })
    }

    /// A whole value of this length is to be saved. Says at what place; `None` if that can't be: a
    /// save is under way, or a sync has failed, or a limit is reached. Then nothing changes.
    /// Otherwise every rewrite is over.
    pub fn whole(&mut self, length: u64) -> Option<Target>
        ensures place { result ≡ whole_place self.old length }
        ensures after { self.new ≡ after_whole self.old length }
    {
        if (self.phase != IDLE && self.phase != DUE) || !self.fits(0, length) {
            return None;
        }
        self.phase = WHOLE;
        self.number += 1;
        self.turns += 1;
        self.next_end = HEAD + length + TAIL;
        self.next_length = length;
        Some(Target {
            offset: 0,
            number: self.number,
            before: 0,
            slot: other(self.counts),
        })
    }

    /// The copies of a rewrite that are left, and behind them an entry of this length, are to be
    /// saved. Says at what place the entry is written; `None` if that can't be: as for
    /// [`Slots::entry`], or the rewrite is over or has no value yet, or there are more entries than
    /// it has copied. Then nothing changes.
    pub fn last(&mut self, with: &Rewrite, length: u64) -> Option<Target>
        ensures place { result ≡ last_place self.old with.now length }
        ensures after { self.new ≡ after_last self.old with.now length }
    {
        if self.phase != IDLE || !self.fits(with.end, length) {
            return None;
        }
        if with.turn != self.turns || with.end == 0 || with.from_end != self.end {
            return None;
        }
        self.phase = LAST;
        self.number += 1;
        self.next_end = with.end + (ENTRY_HEAD + length + TAIL);
        self.next_base = with.base;
        self.next_length = with.length;
        Some(Target {
            offset: with.end,
            number: self.number,
            before: with.seal,
            slot: other(self.counts),
        })
    }

    /// All that the save under way has written so far is synced, and its own seal is this one. So
    /// it counts; or, if it ends a rewrite, the head is to be written now, and counts once that is
    /// synced. If no save is under way, nothing changes.
    pub fn stored(&mut self, seal: u64)
        ensures { self.new ≡ after_stored self.old seal }
    {
        if self.phase == ENTRY {
            self.end = self.next_end;
            self.seal = seal;
            self.phase = IDLE;
        } else if self.phase == WHOLE {
            self.counts = other(self.counts);
            self.end = self.next_end;
            self.seal = seal;
            self.base = seal;
            self.length = self.next_length;
            self.phase = IDLE;
        } else if self.phase == LAST {
            self.phase = TOP;
        } else if self.phase == TOP {
            self.counts = other(self.counts);
            self.end = self.next_end;
            self.seal = seal;
            self.base = self.next_base;
            self.length = self.next_length;
            self.phase = IDLE;
        }
    }

    /// The place of the head of a rewrite, once the entry that ends it is stored. `None`
    /// if none is under way.
    pub fn head(&self) -> Option<Target>
        ensures { result ≡ head_place self.now }
    {
        if self.phase != TOP {
            return None;
        }
        Some(Target {
            offset: 0,
            number: self.number,
            before: 0,
            slot: other(self.counts),
        })
    }

    /// A write of the save under way has failed. What counted still counts, and the next save is a
    /// whole value. But if it was the head of a rewrite, nobody knows whether it is there. Returns
    /// whether it is known what counts.
    pub fn failed(&mut self) -> bool
        ensures known { result ≡ is_known self.old }
        ensures after { self.new ≡ after_failure self.old }
    {
        if self.phase == TOP {
            self.phase = UNSURE;
        } else if self.phase == ENTRY || self.phase == WHOLE || self.phase == LAST {
            self.phase = DUE;
        }
        self.phase != UNSURE
    }

    /// A sync has failed, so nobody knows what counts. Nothing is saved any more.
    pub fn doubt(&mut self)
        ensures { self.new ≡ unsure self.old }
    {
        self.phase = UNSURE;
    }

    /// Zeros may be written that make the file longer than the entry under way does: from this
    /// offset on, in the slot that counts. `None` if no entry is under way.
    pub fn zeros(&self) -> Option<u64>
        ensures { result ≡ zeros_at self.now }
    {
        if self.phase == ENTRY {
            Some(self.next_end)
        } else {
            None
        }
    }

    /// The mark that shows that the last save was synced. `None` if that isn't known.
    pub fn mark(&self) -> Option<Mark>
        ensures { result ≡ mark_of self.now }
    {
        if self.phase != IDLE {
            return None;
        }
        Some(Mark {
            offset: self.end,
            number: self.number,
            length: self.length,
            base: self.base,
            slot: self.counts,
        })
    }

    /// A rewrite of what is stored begins, and any other one is over. `None` if that can't be: a
    /// save is under way, or the next one has to be a whole value, or a limit is reached.
    pub fn rewrite(&mut self) -> Option<Rewrite>
        ensures begun { result ≡ rewrite_of self.old }
        ensures after { self.new ≡ after_rewrite self.old }
    {
        if self.phase != IDLE || self.turns >= NUMBERS {
            return None;
        }
        self.turns += 1;
        Some(Rewrite {
            turn: self.turns,
            number: self.number,
            from_end: self.end,
            from_seal: self.seal,
            base: 0,
            seal: 0,
            length: 0,
            end: 0,
            from: self.counts,
        })
    }
}
