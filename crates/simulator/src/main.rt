//! The program `simulator`: `markring` without `run`, and so without node threads and disks. It
//! does `sim` and `decode` in the same way, from two thirds of the crates. So a first call of
//! `./markring sim` proves and builds this program, which takes less time.
#![tactic(auto)]

ghost use Rattle.std.specs.Prelude.{◌≤◌, IfOk};

use commands::{run_decode, run_script};
use std::process::ExitCode;
use std::rt::{Env, Files};
use std::{env, io};
use words::{Command, REFUSED, WordsError, print_refused_words};

fn main(rt: HostRuntime) -> ExitCode {
    let status = match run(&rt) {
        Ok(status) => status,
        Err(error) => print_refused_words(&mut io::writer(&rt), error).unwrap_or(REFUSED),
    };
    ExitCode::from(status)
}

/// Does what the program's arguments ask for, and returns the exit status. It doesn't know `run`.
fn run<R>(rt: &R) -> Result<u8, WordsError>
where
    R: Env + Files + Input + Print + AllocGlobal,
    ensures { IfOk result (λ status. status ≤ 2) }
{
    let alloc = rt.alloc();
    let words: Vec<String> = env::args(rt)?.collect(alloc)?;
    match Command::read(alloc, words.as_slice())? {
        Command::Sim { script } => Ok(run_script(rt, script)),
        Command::Decode { hex } => Ok(run_decode(rt, hex)),
        Command::Run { .. } => Err(WordsError::Unknown),
    }
}
