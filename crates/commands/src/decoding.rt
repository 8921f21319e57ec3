//! Frames, read from words that spell their bytes. The status distinguishes words that aren't
//! hexadecimal digits from bytes that aren't a frame.
ghost use Rattle.std.specs.Prelude.{◌≤◌, IfOk};
ghost use Rattle.commands.specs.Frames.{OrMemory, PrintsDecoded, PrintsSpelled};

use crate::output::{Lost, print_frame, print_refusal, print_refused_word};
use hex::FromHexError;
use ids::Refusal;
use std::alloc::Global;
use std::io::Write;

/// Prints the frame that the word spells, with two hexadecimal digits of either case for each byte,
/// and returns the exit status 0.
///
/// If the bytes spell no frame, it prints the refusal [`Refusal::BadFrame`]; so it does for an
/// empty word. If memory runs out, it prints [`Refusal::Memory`]. The status is then 1. If the word
/// isn't hexadecimal digits or has an odd number of them, it prints `words refused`, and the status
/// is 2. It fails if the output does, whatever was printed.
pub fn decode<W: Write>(alloc: Global, word: &str, out: &mut W) -> Result<u8, Lost>
    ensures status { IfOk result (λ status.
        PrintsDecoded word.now status (W.contents out.old) (W.contents out.new)) }
    ensures small { IfOk result (λ status. status ≤ 2) }
{
    match hex::decode(alloc, word) {
        Ok(bytes) => print_spelled(alloc, out, bytes.as_slice()),
        Err(FromHexError::OutOfMemory) => print_refusal(out, Refusal::Memory),
        Err(_) => print_refused_word(out),
    }
}

/// Prints the frame that the bytes spell, or the refusal, and returns the status.
fn print_spelled<W: Write>(alloc: Global, out: &mut W, bytes: &[u8]) -> Result<u8, Lost>
    ensures status { IfOk result (λ status. OrMemory
        (PrintsSpelled bytes.now status (W.contents out.old) (W.contents out.new))
        status (W.contents out.old) (W.contents out.new)) }
    ensures small { IfOk result (λ status. status ≤ 2) }
{
    match frames::decode(alloc, bytes) {
        Ok(frame) => print_frame(out, &frame),
        Err(Refusal::Memory) => print_refusal(out, Refusal::Memory),
        Err(_) => print_refusal(out, Refusal::BadFrame),
    }
}
