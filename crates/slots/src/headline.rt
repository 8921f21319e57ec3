//! The theorems on what a folder keeps, as the contract of one function that does nothing. The
//! statements are in `specs/Laws`, over the definitions of `specs/Disk` and `specs/Runs`.
ghost use Rattle.slots.specs.Laws.{FindsLast, FindsStored, MarksHold, NeverDamaged};
ghost use Rattle.slots.specs.Runs.{OfEveryRun};

/// The theorems. They hold after any list of steps of a new folder. These are saves of entries
/// and of whole values, and rewrites while entries are saved; writes and syncs of these that
/// fail; marks; the end of the process or of the machine at any moment; and openings. A crash
/// leaves of each byte that was written since the last sync of its file what was there, what was
/// written, or any other.
///
/// The premise is that no torn write has a right seal, and that a seal fits only what it was made
/// over. A new folder is one whose first save is stored; its values have the second version.
///
/// The function does nothing; its contract states the theorems.
pub fn laws()
    // An opening finds what was saved last, of which it is known that it is stored; or what was
    // being saved, or could not be, since then.
    ensures finds_last { OfEveryRun FindsLast }
    // After a sync that succeeded it finds what was saved.
    ensures finds_stored { OfEveryRun FindsStored }
    // It never says that the folder is damaged.
    ensures never_damaged { OfEveryRun NeverDamaged }
    // Of any two files, also of ones that have changed on the disk, none is opened as an older
    // state than a mark shows that was found in them.
    ensures marks_hold { MarksHold }
{}
