//! The commands on a program's files and standard streams.
ghost use Rattle.std.specs.Prelude.{◌≤◌};

use crate::decoding::decode;
use crate::output::print_refusal;
use crate::reading::{read_file, read_text};
use crate::simulation::sim;
use ids::Refusal;
use std::io;
use std::io::BufWriter;
use std::rt::Files;
use words::REFUSED;

/// Runs the script in this file, or the one on standard input, as [`sim`] does. The replies go to
/// standard output, through a buffer. Returns the exit status: that of [`sim`], or 1 if there is no
/// memory for the buffer or the output fails.
// (Not inlined: a program that does more would share processor registers with the loop over lines.)
#[inline(never)]
pub fn run_script<R>(rt: &R, script: Option<&str>) -> u8
where
    R: Files + Input + Print + AllocGlobal,
    ensures { result ≤ 2 }
{
    let alloc = rt.alloc();
    let script = match script {
        Some(path) => read_file(rt, alloc, path),
        None => read_text(alloc, rt.reader()),
    };
    let status = match BufWriter::new(alloc, io::writer(rt)) {
        Ok(mut out) => sim(alloc, &script, &mut out),
        Err(_) => print_refusal(&mut io::writer(rt), Refusal::Memory),
    };
    status.unwrap_or(REFUSED)
}

/// Prints the frame that this word spells to standard output, as [`decode`] does. Returns the exit
/// status: that of [`decode`], or 1 if the output fails.
pub fn run_decode<R>(rt: &R, hex: &str) -> u8
where
    R: Print + AllocGlobal,
    ensures { result ≤ 2 }
{
    decode(rt.alloc(), hex, &mut io::writer(rt)).unwrap_or(REFUSED)
}
