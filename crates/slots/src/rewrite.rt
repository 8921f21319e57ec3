//! A whole value that is made beside, in the slot that doesn't count, while entries are added.
ghost use Rattle.std.specs.Prelude.{◌≡◌};
ghost use Rattle.slots.specs.Decisions.{after_copies, after_value, copying, value_place};

use crate::saving::{HEAD, MOST, TAIL, Target, other};

/// A rewrite. It may be used by another thread than [`Slots`](crate::Slots), which begins and ends
/// it.
#[repr(C)]
#[derive(Clone, Copy)]
pub struct Rewrite {
    /// Which one it is.
    pub turn: u64,
    /// The number of the last save that its value holds.
    pub number: u64,
    /// In the slot that counts: the offset up to which it has copied, and the seal before that.
    pub from_end: u64,
    pub from_seal: u64,
    /// In the other slot: the seal of its value, that of the last copy, the length of the value,
    /// and the offset of the next copy. All are 0 before the value is written.
    pub base: u64,
    pub seal: u64,
    pub length: u64,
    pub end: u64,
    /// The slot that counts.
    pub from: u8,
}

/// Bytes of entries that are copied: how many, and from which offset of which slot to which.
#[repr(C)]
#[derive(Clone, Copy)]
pub struct Copying {
    pub length: u64,
    pub from: u64,
    pub to: u64,
    pub from_slot: u8,
    pub to_slot: u8,
}

impl Rewrite {
    /// Its value, of this length, is to be written. Says at what place; but the head isn't written
    /// now: zeros are, in its place. `None` if the value is written already, or too long.
    pub fn value(&self, length: u64) -> Option<Target>
        ensures { result ≡ value_place self.now length }
    {
        if self.end != 0 || length > MOST {
            return None;
        }
        Some(Target {
            offset: 0,
            number: self.number,
            before: 0,
            slot: other(self.from),
        })
    }

    /// The value, of this length and with this seal, is written and synced, except its head. If one
    /// was written before, or this one is too long, nothing changes.
    pub fn written(&mut self, length: u64, seal: u64)
        ensures { self.new ≡ after_value self.old length seal }
    {
        if self.end == 0 && length <= MOST {
            self.base = seal;
            self.seal = seal;
            self.length = length;
            self.end = HEAD + length + TAIL;
        }
    }

    /// What is to be copied of the entries up to this offset of the slot that counts, which is
    /// the end of an entry that is stored. `None` if no value is written, or the copies would end
    /// beyond what a file may have, or more is copied already.
    pub fn copy(&self, end: u64) -> Option<Copying>
        ensures { result ≡ copying self.now end }
    {
        if self.end == 0 || self.end > MOST || end > MOST || end < self.from_end {
            return None;
        }
        Some(Copying {
            length: end - self.from_end,
            from: self.from_end,
            to: self.end,
            from_slot: self.from,
            to_slot: other(self.from),
        })
    }

    /// These are written: `from_seal` is the last seal of what was copied, `seal` that of the
    /// copies. If they can't be, as [`Rewrite::copy`] says, nothing changes.
    pub fn copied(&mut self, end: u64, from_seal: u64, seal: u64)
        ensures { self.new ≡ after_copies self.old end from_seal seal }
    {
        if let Some(copying) = self.copy(end) {
            self.from_end = end;
            self.from_seal = from_seal;
            self.seal = seal;
            self.end += copying.length;
        }
    }
}
