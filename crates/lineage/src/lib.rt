//! The processes that ran a node, and what another node's word says of them.
//!
//! Each process begins with a save, so the numbers of a node's saves are one line, in which each
//! process has a part: from its first save up to the first one of the next process. What is saved
//! of a node holds that line. Another node's word, "I know the process n, which made save s", is
//! true of it if save s is in the part of n. Otherwise it is an older copy, which another process
//! continued, even if more saves were made since.
//!
//! A line has at most as many ancestors as there is room for; what is forgotten fits every word.
#![tactic(auto)]

mod senders;

ghost use Rattle.std.specs.Prelude.{◌≡◌, ◌≤◌, ◌∷◌, [], length, take};
ghost use Rattle.lineage.specs.Lines.{begun, judged, maker, nobody};
ghost use Rattle.lineage.specs.Laws.{EndsWithCause, FindsOlder, LatestAlone, NeverBack, NewestGoesOn, NewestIsMet};

pub use senders::{Process, Sender, meet, word};

/// A process that ran a node: its nonce, a random number other than 0, and the number of its first
/// save. If the nonce is 0, nobody knows any more which processes made the saves from there on.
#[repr(C)]
#[derive(Clone, Copy)]
pub struct Ancestor {
    pub nonce: u64,
    pub run: u64,
}

// Who made the saves before a line begins, nobody knows.
const NOBODY: Ancestor = Ancestor { nonce: 0, run: 0 };

/// What another node's word says of a process.
#[derive(Clone, Copy)]
pub enum Verdict {
    /// The other node knows this process.
    Known,
    /// It knows nothing, or an earlier process, which this one continued.
    Fits,
    /// It knows a save that this process hasn't made nor continued.
    Older,
}

/// The nonce of the process that made a save, or 0 if the line doesn't know.
pub fn maker(line: &[Ancestor], save: u64) -> u64
    ensures { result ≡ maker line.now save }
{
    let mut at = line.len();
    while at > 0 {
        at -= 1;
        if line[at].run <= save {
            return line[at].nonce;
        }
    }
    0
}

/// What it says that another node knows the process `known`, which made this save, to the process
/// `own`, which has this line, and whose last save is `stored`. If `known` is 0, the other node
/// knows of none.
pub fn judge(line: &[Ancestor], own: u64, stored: u64, known: u64, save: u64) -> Verdict
    ensures { result ≡ judged line.now own stored known save }
{
    if known == own {
        return if save <= stored {
            Verdict::Known
        } else {
            Verdict::Older
        };
    }
    if known == 0 {
        return Verdict::Fits;
    }
    let maker = maker(line, save);
    if maker == 0 || maker == known {
        Verdict::Fits
    } else {
        Verdict::Older
    }
}

/// Adds a process that begins to the first `count` ancestors of a line, and returns how many there
/// are then. If there is no room, it forgets two in the middle; with room for fewer than three,
/// all.
pub fn begin(line: &mut [Ancestor], count: usize, process: Ancestor) -> usize
    ensures width { length line.new ≡ length line.old }
    ensures count { result ≤ length line.old }
    ensures begun { take result line.new
        ≡ begun (length line.old) (take count line.old) process }
{
    if count < line.len() {
        line[count] = process;
        return count + 1;
    }
    let middle = line.len() / 2;
    if line.len() < 3 {
        return 0;
    }
    line[middle].nonce = 0;
    line[middle + 1..].rotate_left(1);
    let last = line.len() - 1;
    line[last] = process;
    line.len()
}

/// Forgets the processes before this one, and returns how many ancestors the line has then.
pub fn forget(line: &mut [Ancestor], process: Ancestor) -> usize
    ensures width { length line.new ≡ length line.old }
    ensures count { result ≤ length line.old }
    ensures forgot { take result line.new ≡ begun (length line.old) (nobody ∷ []) process }
{
    if line.is_empty() {
        return 0;
    }
    line[0] = NOBODY;
    begin(line, 1, process)
}

/// What [`judge`] and [`begin`] mean together, over every run: processes of a node begin and save,
/// other nodes hear of them, they forget those before them, and any state that was ever saved may
/// be put back and go on. And what [`meet`] means, over every list of packets of a node.
///
/// The function does nothing; its contract states the theorems.
pub fn laws()
    ensures ends_with_cause { EndsWithCause }
    ensures finds_older { FindsOlder }
    ensures newest_goes_on { NewestGoesOn }
    ensures never_back { NeverBack }
    ensures latest_alone { LatestAlone }
    ensures newest_is_met { NewestIsMet }
{}
