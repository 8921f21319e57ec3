//! The calls of `include/markring_lineage.h`: the processes that ran a node. What they do is in the
//! crate `lineage`.
ghost use Rattle.std.specs.Prelude.{◌≡◌, ◌≤◌, ◌∷◌, [], length, take};
ghost use Rattle.lineage.specs.Lines.{begun, judged, nobody};
ghost use Rattle.lineage.specs.Senders.{word};
ghost use Rattle.markring_c.specs.Lineage.{sender_number, verdict_number, Meets};

use lineage::{Ancestor, Process, Sender, Verdict, begin, forget, judge, meet, word};

fn verdict_number(verdict: Verdict) -> i32
    ensures { result ≡ verdict_number verdict }
{
    match verdict {
        Verdict::Fits => 0,
        Verdict::Known => 1,
        Verdict::Older => 2,
    }
}

fn sender_number(sender: Sender) -> i32
    ensures { result ≡ sender_number sender }
{
    match sender {
        Sender::Latest => 0,
        Sender::Behind => 1,
        Sender::Later => 2,
        Sender::Outdated => 3,
    }
}

/// What another node's word says of a process.
#[unsafe(no_mangle)]
pub extern "C" fn markring_lineage_judge(
    line: &[Ancestor],
    own: u64,
    stored: u64,
    known: u64,
    save: u64,
) -> i32
    ensures { result ≡ verdict_number (judged line.now own stored known save) }
{
    verdict_number(judge(line, own, stored, known, save))
}

/// A process begins: it is added to the first `count` ancestors.
#[unsafe(no_mangle)]
pub extern "C" fn markring_lineage_begin(
    line: &mut [Ancestor],
    count: usize,
    process: &Ancestor,
) -> usize
    ensures width { length line.new ≡ length line.old }
    ensures count { result ≤ length line.old }
    ensures begun { take result line.new
        ≡ begun (length line.old) (take count line.old) process.now }
{
    begin(line, count, *process)
}

/// A process forgets those before it.
#[unsafe(no_mangle)]
pub extern "C" fn markring_lineage_forget(line: &mut [Ancestor], process: &Ancestor) -> usize
    ensures width { length line.new ≡ length line.old }
    ensures count { result ≤ length line.old }
    ensures forgot { take result line.new
        ≡ begun (length line.old) (nobody ∷ []) process.now }
{
    forget(line, *process)
}

/// A packet of a process of another node came.
#[unsafe(no_mangle)]
pub extern "C" fn markring_lineage_meet(known: &mut Process, sender: &Process, heard: u64) -> i32
    ensures { Meets known.old sender.now heard known.new result }
{
    sender_number(meet(known, sender, heard))
}

/// What is known of a process, as one number.
#[unsafe(no_mangle)]
pub extern "C" fn markring_lineage_word(known: &Process) -> u64
    ensures { result ≡ word known.now }
{
    word(known)
}
