//! What an opening finds in the slots of a folder, and which one counts.
ghost use Rattle.std.specs.Prelude.{◌≡◌, ◌↔◌, IsTrue};
ghost use Rattle.slots.specs.Openings.{chosen, due_wholes, with_behind, with_entry, with_mark};
ghost use Rattle.slots.specs.Openings.{with_value, is_next, IsChoice};

use crate::saving::NUMBERS;

/// What was found in a slot. All numbers are 0 before anything was.
#[repr(C)]
#[derive(Clone, Copy)]
pub struct Found {
    /// The number of the last save in it: of its value, or of the last entry behind that.
    pub number: u64,
    /// The highest number of a save of which something shows that it was whole.
    pub synced: u64,
    /// The version of its value, 1 or 2; 0 if it has no whole value.
    pub version: u8,
}

/// Which slot counts.
#[derive(Clone, Copy)]
pub enum Choice {
    First,
    Second,
    /// Neither has a whole value, or both end with the same save; or what was saved last was whole,
    /// and has changed since.
    Damaged,
}

impl Found {
    /// A slot has a whole value, of this version and this number.
    pub fn value(&mut self, version: u8, number: u64)
        ensures { self.new ≡ with_value self.old version number }
    {
        self.version = version;
        self.number = number;
    }

    /// Behind what was found is a whole entry of this number, sealed over the seal before it.
    /// Returns whether it belongs there. If not, the slot ends before it, and nothing changes.
    pub fn entry(&mut self, number: u64) -> bool
        ensures next { result ≡ is_next self.old number }
        ensures after { self.new ≡ with_entry self.old number }
    {
        if self.version != 2 || number <= self.number {
            return false;
        }
        self.number = number;
        true
    }

    /// Behind what was found is a mark of this number, made for the value of this slot.
    pub fn mark(&mut self, number: u64)
        ensures { self.new ≡ with_mark self.old number }
    {
        if number < NUMBERS && number > self.synced {
            self.synced = number;
        }
    }

    /// Behind what was found is something that isn't whole, and behind that a whole entry of the
    /// number `behind`, sealed over it. If nothing whole was found, the first says that its number
    /// is `claimed`.
    pub fn behind(&mut self, claimed: u64, behind: u64)
        ensures { self.new ≡ with_behind self.old claimed behind }
    {
        if behind == 0 {
            return;
        }
        let shown = behind - 1;
        let expected = if self.version == 0 {
            shown == claimed
        } else {
            shown > 0 && shown - 1 == self.number
        };
        if expected && shown > self.synced {
            self.synced = shown;
        }
    }
}

/// Which of two slots counts: the one whose last save has the higher number, if nothing shows that
/// a later save was whole.
pub fn choose(first: &Found, second: &Found) -> Choice
    ensures means { IsChoice first.now second.now result }
    ensures same { result ≡ chosen first.now second.now }
{
    if first.version == 0 && second.version == 0 {
        return Choice::Damaged;
    }
    if first.version != 0 && second.version != 0 && first.number == second.number {
        return Choice::Damaged;
    }
    let is_second = first.version == 0 || (second.version != 0 && second.number > first.number);
    let last = if is_second {
        second.number
    } else {
        first.number
    };
    if first.synced > last || second.synced > last {
        return Choice::Damaged;
    }
    if is_second {
        Choice::Second
    } else {
        Choice::First
    }
}

/// How many saves have to be whole values before an entry is added, if the first slot counts: a
/// slot of the first version can't have entries, and shouldn't stay, since earlier programs would
/// open it.
pub fn wholes_due(counts: &Found, other: &Found) -> u8
    ensures { result ≡ due_wholes counts.now other.now }
{
    if counts.version == 1 {
        2
    } else if other.version == 1 {
        1
    } else {
        0
    }
}
