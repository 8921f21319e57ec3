//! The calls of `include/markring_slots.h`: how a folder keeps what is saved. What they decide is
//! in the crate `slots`.
ghost use Rattle.std.specs.Prelude.{◌≡◌, pos};
ghost use Rattle.slots.specs.Decisions.{after_copies, after_entry, after_failure, after_last};
ghost use Rattle.slots.specs.Decisions.{after_rewrite, after_stored, after_value, after_whole};
ghost use Rattle.slots.specs.Decisions.{copying, created, entry_place, head_place, is_known};
ghost use Rattle.slots.specs.Decisions.{last_place, mark_of, opened};
ghost use Rattle.slots.specs.Decisions.{rewrite_of, unsure, value_place, whole_place, zeros_at};
ghost use Rattle.slots.specs.Openings.{chosen, due_wholes, is_next, with_behind, with_entry};
ghost use Rattle.slots.specs.Openings.{with_mark, with_value};
ghost use Rattle.markring_c.specs.Slots.{choice_number, flag_number, Gives};

use slots::{Choice, Copying, Found, Mark, Rewrite, Slots, Target, choose, wholes_due};

/// The slots of a new folder.
#[unsafe(no_mangle)]
pub extern "C" fn markring_slots_create(slots: &mut Slots, number: u64)
    ensures { slots.new ≡ created number }
{
    *slots = Slots::create(number);
}

/// The slots of a folder that was opened.
#[unsafe(no_mangle)]
pub extern "C" fn markring_slots_open(
    slots: &mut Slots,
    slot: u8,
    found: &Found,
    end: u64,
    seal: u64,
    base: u64,
    length: u64,
)
    ensures { slots.new ≡ opened slot found.now end seal base length }
{
    *slots = Slots::open(slot, found, end, seal, base, length);
}

/// The place of an entry that is to be saved: 1, or 0 if none may be added.
#[unsafe(no_mangle)]
pub extern "C" fn markring_slots_entry(slots: &mut Slots, length: u64, place: &mut Target) -> i32
    ensures place { Gives (entry_place slots.old length) place.old place.new result }
    ensures after { slots.new ≡ after_entry slots.old length }
{
    let given = slots.entry(length);
    if let Some(it) = given {
        *place = it;
        return 1;
    }
    0
}

/// The place of a whole value that is to be saved: 1, or 0 if none may be.
#[unsafe(no_mangle)]
pub extern "C" fn markring_slots_whole(slots: &mut Slots, length: u64, place: &mut Target) -> i32
    ensures place { Gives (whole_place slots.old length) place.old place.new result }
    ensures after { slots.new ≡ after_whole slots.old length }
{
    let given = slots.whole(length);
    if let Some(it) = given {
        *place = it;
        return 1;
    }
    0
}

/// The place of the entry that ends a rewrite: 1, or 0 if it can't be ended.
#[unsafe(no_mangle)]
pub extern "C" fn markring_slots_last(
    slots: &mut Slots,
    with: &Rewrite,
    length: u64,
    place: &mut Target,
) -> i32
    ensures place { Gives (last_place slots.old with.now length) place.old place.new result }
    ensures after { slots.new ≡ after_last slots.old with.now length }
{
    let given = slots.last(with, length);
    if let Some(it) = given {
        *place = it;
        return 1;
    }
    0
}

/// The place of the head of a rewrite: 1, or 0 if none is under way.
#[unsafe(no_mangle)]
pub extern "C" fn markring_slots_head(slots: &Slots, place: &mut Target) -> i32
    ensures { Gives (head_place slots.now) place.old place.new result }
{
    let given = slots.head();
    if let Some(it) = given {
        *place = it;
        return 1;
    }
    0
}

/// What the save under way has written is synced.
#[unsafe(no_mangle)]
pub extern "C" fn markring_slots_stored(slots: &mut Slots, seal: u64)
    ensures { slots.new ≡ after_stored slots.old seal }
{
    slots.stored(seal);
}

/// A write of the save under way has failed: 1 if it is known what counts, else 0.
#[unsafe(no_mangle)]
pub extern "C" fn markring_slots_failed(slots: &mut Slots) -> i32
    ensures known { result ≡ flag_number (is_known slots.old) }
    ensures after { slots.new ≡ after_failure slots.old }
{
    if slots.failed() { 1 } else { 0 }
}

/// A sync has failed.
#[unsafe(no_mangle)]
pub extern "C" fn markring_slots_doubt(slots: &mut Slots)
    ensures { slots.new ≡ unsure slots.old }
{
    slots.doubt();
}

/// The offset from which on zeros may be written: 1, or 0 if no entry is under way.
#[unsafe(no_mangle)]
pub extern "C" fn markring_slots_zeros(slots: &Slots, offset: &mut u64) -> i32
    ensures { Gives (zeros_at slots.now) offset.old offset.new result }
{
    let given = slots.zeros();
    if let Some(it) = given {
        *offset = it;
        return 1;
    }
    0
}

/// The mark of the last save: 1, or 0 if it isn't known that it is synced.
#[unsafe(no_mangle)]
pub extern "C" fn markring_slots_mark(slots: &Slots, mark: &mut Mark) -> i32
    ensures { Gives (mark_of slots.now) mark.old mark.new result }
{
    let given = slots.mark();
    if let Some(it) = given {
        *mark = it;
        return 1;
    }
    0
}

/// Begins a rewrite: 1, or 0 if none may begin.
#[unsafe(no_mangle)]
pub extern "C" fn markring_slots_rewrite(slots: &mut Slots, rewrite: &mut Rewrite) -> i32
    ensures begun { Gives (rewrite_of slots.old) rewrite.old rewrite.new result }
    ensures after { slots.new ≡ after_rewrite slots.old }
{
    let given = slots.rewrite();
    if let Some(it) = given {
        *rewrite = it;
        return 1;
    }
    0
}

/// The place of the value of a rewrite: 1, or 0 if it is written already, or too long.
#[unsafe(no_mangle)]
pub extern "C" fn markring_slots_rewrite_value(
    rewrite: &Rewrite,
    length: u64,
    place: &mut Target,
) -> i32
    ensures { Gives (value_place rewrite.now length) place.old place.new result }
{
    let given = rewrite.value(length);
    if let Some(it) = given {
        *place = it;
        return 1;
    }
    0
}

/// The value of a rewrite is written and synced, except its head.
#[unsafe(no_mangle)]
pub extern "C" fn markring_slots_rewrite_written(rewrite: &mut Rewrite, length: u64, seal: u64)
    ensures { rewrite.new ≡ after_value rewrite.old length seal }
{
    rewrite.written(length, seal);
}

/// What a rewrite has to copy: 1, or 0 if it can't.
#[unsafe(no_mangle)]
pub extern "C" fn markring_slots_rewrite_copy(
    rewrite: &Rewrite,
    end: u64,
    copy: &mut Copying,
) -> i32
    ensures { Gives (copying rewrite.now end) copy.old copy.new result }
{
    let given = rewrite.copy(end);
    if let Some(it) = given {
        *copy = it;
        return 1;
    }
    0
}

/// A rewrite has copied the entries up to this offset.
#[unsafe(no_mangle)]
pub extern "C" fn markring_slots_rewrite_copied(
    rewrite: &mut Rewrite,
    end: u64,
    from_seal: u64,
    seal: u64,
)
    ensures { rewrite.new ≡ after_copies rewrite.old end from_seal seal }
{
    rewrite.copied(end, from_seal, seal);
}

/// A slot has a whole value.
#[unsafe(no_mangle)]
pub extern "C" fn markring_slots_found_value(found: &mut Found, version: u8, number: u64)
    ensures { found.new ≡ with_value found.old version number }
{
    found.value(version, number);
}

/// A whole entry is behind what was found: 1 if it belongs there, else 0.
#[unsafe(no_mangle)]
pub extern "C" fn markring_slots_found_entry(found: &mut Found, number: u64) -> i32
    ensures next { result ≡ flag_number (is_next found.old number) }
    ensures after { found.new ≡ with_entry found.old number }
{
    if found.entry(number) { 1 } else { 0 }
}

/// A mark is behind what was found.
#[unsafe(no_mangle)]
pub extern "C" fn markring_slots_found_mark(found: &mut Found, number: u64)
    ensures { found.new ≡ with_mark found.old number }
{
    found.mark(number);
}

/// A whole entry is behind something that isn't whole.
#[unsafe(no_mangle)]
pub extern "C" fn markring_slots_found_behind(found: &mut Found, claimed: u64, behind: u64)
    ensures { found.new ≡ with_behind found.old claimed behind }
{
    found.behind(claimed, behind);
}

fn choice_number(choice: Choice) -> i32
    ensures { result ≡ choice_number choice }
{
    match choice {
        Choice::First => 0,
        Choice::Second => 1,
        Choice::Damaged => 2,
    }
}

/// Which of two slots counts.
#[unsafe(no_mangle)]
pub extern "C" fn markring_slots_choose(first: &Found, second: &Found) -> i32
    ensures { result ≡ choice_number (chosen first.now second.now) }
{
    choice_number(choose(first, second))
}

/// How many saves have to be whole values before an entry is added.
#[unsafe(no_mangle)]
pub extern "C" fn markring_slots_wholes_due(counts: &Found, other: &Found) -> i32
    ensures { result ≡ pos (due_wholes counts.now other.now) }
{
    i32::from(wholes_due(counts, other))
}
