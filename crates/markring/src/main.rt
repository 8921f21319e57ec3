//! The program `markring`, of which only `run` is here: scripts on node threads with disks. It
//! reads the files that its arguments name and buffers standard output; the crates below decide
//! what `sim` and `decode` print.
#![tactic(auto)]

ghost use Rattle.std.specs.Prelude.{◌≤◌, IfOk};

mod asking;
mod bytes;
mod running;

use commands::{print_unread, read_file, run_decode, run_script};
use std::fs::File;
use std::process::ExitCode;
use std::rt::{Env, Files};
use std::sync::Wait;
use std::thread::Threads;
use std::time::Clock;
use std::{env, io};
use words::{Command, REFUSED, WordsError, print_refused_words};

fn main(rt: HostRuntime) -> ExitCode {
    let status = match run(&rt) {
        Ok(status) => status,
        Err(error) => print_refused_words(&mut io::writer(&rt), error).unwrap_or(REFUSED),
    };
    ExitCode::from(status)
}

/// Does what the program's arguments ask for, and returns the exit status.
fn run<R>(rt: &R) -> Result<u8, WordsError>
where
    R: Env + Input + Print + AllocGlobal,
    R: Files<File = File> + Clock + Threads + Wait + Clone + Send + Sync + Drop + 'static,
    ensures { IfOk result (λ status. status ≤ 2) }
{
    let alloc = rt.alloc();
    let words: Vec<String> = env::args(rt)?.collect(alloc)?;
    match Command::read(alloc, words.as_slice())? {
        Command::Sim { script } => Ok(run_script(rt, script)),
        Command::Decode { hex } => Ok(run_decode(rt, hex)),
        Command::Run { config, script } => Ok(run_files(rt, config, script)),
    }
}

/// Runs the script in a file on node threads, as the configuration in another file says.
fn run_files<R>(rt: &R, config: &str, script: &str) -> u8
where
    R: Print + AllocGlobal,
    R: Files<File = File> + Clock + Threads + Wait + Clone + Send + Sync + Drop + 'static,
    ensures { result ≤ 2 }
{
    let (alloc, out) = (rt.alloc(), &mut io::writer(rt));
    let config = match read_file(rt, alloc, config) {
        Ok(text) => text,
        Err(unread) => return print_unread(out, &unread).unwrap_or(REFUSED),
    };
    match read_file(rt, alloc, script) {
        Ok(script) => running::run(rt, alloc, config.as_str(), script.as_str(), out),
        Err(unread) => print_unread(out, &unread).unwrap_or(REFUSED),
    }
}
