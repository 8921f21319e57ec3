//! The calls of the output. If one of them fails, nothing more is printed. [`Lost`] shows that one
//! failed: only the functions of this module make it, each when its own call of the output failed.
ghost use Rattle.std.specs.Prelude.{◌≡◌, ◌≤◌, ◌++◌, ◌∷◌, [], IfOk, OnOk, codes};
ghost use Rattle.std.specs.Io.KnownBytes.{Appends, Keeps};
ghost use Rattle.commands.specs.Script.{PrintsUnread, reply_text};
ghost use Rattle.commands.specs.declared.simulation.Reply.TheVariants as reply;
ghost use Rattle.script.specs.Frames.{frame_text};
ghost use Rattle.script.specs.Text.{outcome_text, refused_text, report_text};
ghost use Rattle.script.specs.Text.{summary_text};
ghost use Rattle.msg.specs.Frames.{plain};

use crate::reading::Unread;
use ids::Refusal;
use model::Outcome;
use msg::Frame;
use node::Summary;
use script::{FrameText, Printer, SummaryText, print_report};
use std::io::Write;
use words::{DONE, REFUSED, UNREADABLE};

/// Shows that a call of the output failed. (An error of the output is large, and nobody reports its
/// cause, so it isn't kept.)
#[derive(Clone, Copy, Debug)]
pub struct Lost {
    _failed: (),
}

/// Prints the line that was put together, and returns the status.
#[inline(always)]
pub(crate) fn print_line<W: Write>(printer: &Printer, out: &mut W) -> Result<u8, Lost>
    ensures text { OnOk result
        (Appends (W.contents out.old) (W.contents out.new) printer.now) }
    ensures status { IfOk result (λ status. status ≡ 0) }
{
    match printer.print(out) {
        Ok(()) => Ok(DONE),
        Err(_) => Err(Lost { _failed: () }),
    }
}

/// Prints the outcome of a step, and returns the status.
pub(crate) fn print_outcome<W: Write>(out: &mut W, outcome: &Outcome) -> Result<u8, Lost>
    ensures text { OnOk result
        (Appends (W.contents out.old) (W.contents out.new) (outcome_text outcome.now ++ 10 ∷ [])) }
    ensures status { IfOk result (λ status. status ≡ 0) }
{
    let mut printer = Printer::new();
    printer.put_outcome(outcome);
    print_line(&printer, out)
}

/// Prints a line of this text.
pub(crate) fn put_text<W: Write>(out: &mut W, text: &str) -> Result<(), Lost>
    ensures { OnOk result
        (Appends (W.contents out.old) (W.contents out.new) (text.now ++ 10 ∷ [])) }
{
    match writeln!(out, "{}", text) {
        Ok(()) => Ok(()),
        Err(_) => Err(Lost { _failed: () }),
    }
}

/// Prints a node in numbers.
pub(crate) fn put_summary<W: Write>(out: &mut W, summary: Summary) -> Result<(), Lost>
    ensures { OnOk result
        (Appends (W.contents out.old) (W.contents out.new) (summary_text summary ++ 10 ∷ [])) }
{
    match writeln!(out, "{}", SummaryText(summary)) {
        Ok(()) => Ok(()),
        Err(_) => Err(Lost { _failed: () }),
    }
}

/// Prints how many objects the sweeps of each cycle freed.
pub(crate) fn put_report<W: Write>(out: &mut W, sums: &[u64]) -> Result<(), Lost>
    ensures { OnOk result
        (Appends (W.contents out.old) (W.contents out.new) (report_text sums.now)) }
{
    match print_report(out, sums) {
        Ok(()) => Ok(()),
        Err(_) => Err(Lost { _failed: () }),
    }
}

/// Prints a frame, and returns the status.
pub(crate) fn print_frame<W: Write>(out: &mut W, frame: &Frame) -> Result<u8, Lost>
    ensures text { OnOk result (Appends (W.contents out.old) (W.contents out.new)
        (frame_text (plain frame.now) ++ 10 ∷ [])) }
    ensures status { IfOk result (λ status. status ≡ 0) }
{
    match writeln!(out, "{}", FrameText(frame)) {
        Ok(()) => Ok(DONE),
        Err(_) => Err(Lost { _failed: () }),
    }
}

/// Prints that a word isn't hexadecimal digits, and returns the status.
pub(crate) fn print_refused_word<W: Write>(out: &mut W) -> Result<u8, Lost>
    ensures text { OnOk result
        (Appends (W.contents out.old) (W.contents out.new) (codes "words refused" ++ 10 ∷ [])) }
    ensures status { IfOk result (λ status. status ≡ 2) }
{
    match writeln!(out, "words refused") {
        Ok(()) => Ok(UNREADABLE),
        Err(_) => Err(Lost { _failed: () }),
    }
}

/// Prints a refusal, and returns the status. (Not inlined: the room for an error of the output
/// would be zeroed in the caller for each step.)
#[inline(never)]
pub fn print_refusal<W: Write>(out: &mut W, refusal: Refusal) -> Result<u8, Lost>
    ensures text { OnOk result
        (Appends (W.contents out.old) (W.contents out.new) (refused_text refusal ++ 10 ∷ [])) }
    ensures status { IfOk result (λ status. status ≡ 1) }
{
    match writeln!(out, "refused {refusal}") {
        Ok(()) => Ok(REFUSED),
        Err(_) => Err(Lost { _failed: () }),
    }
}

/// Prints that the line of this number is outside the grammar, and returns the status.
#[cold]
pub(crate) fn print_no_command<W: Write>(out: &mut W, number: usize) -> Result<u8, Lost>
    ensures text { OnOk result
        (Appends (W.contents out.old) (W.contents out.new) (reply_text number reply.NoCommand)) }
    ensures status { IfOk result (λ status. status ≡ 2) }
{
    match writeln!(out, "line {number}: not a command") {
        Ok(()) => Ok(UNREADABLE),
        Err(_) => Err(Lost { _failed: () }),
    }
}

// Prints that a text can't be read, and returns the status.
fn print_refused_file<W: Write>(out: &mut W) -> Result<u8, Lost>
    ensures text { OnOk result
        (Appends (W.contents out.old) (W.contents out.new) (codes "file refused" ++ 10 ∷ [])) }
    ensures status { IfOk result (λ status. status ≡ 2) }
{
    match writeln!(out, "file refused") {
        Ok(()) => Ok(UNREADABLE),
        Err(_) => Err(Lost { _failed: () }),
    }
}

/// Prints why a text couldn't be read, and returns the status: 1 if memory ran out, else 2.
pub fn print_unread<W: Write>(out: &mut W, unread: &Unread) -> Result<u8, Lost>
    ensures printed { IfOk result (λ status.
        PrintsUnread unread.now status (W.contents out.old) (W.contents out.new)) }
    ensures small { IfOk result (λ status. status ≤ 2) }
{
    if unread.is_memory() {
        print_refusal(out, Refusal::Memory)
    } else {
        print_refused_file(out)
    }
}

/// Flushes the output.
pub(crate) fn flush<W: Write>(out: &mut W) -> Result<(), Lost>
    ensures { OnOk result (Keeps (W.contents out.old) (W.contents out.new)) }
{
    match out.flush() {
        Ok(()) => Ok(()),
        Err(_) => Err(Lost { _failed: () }),
    }
}
