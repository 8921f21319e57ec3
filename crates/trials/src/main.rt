//! A program for test cases, which makes the calls that neither `markring` nor the C library makes;
//! it decides nothing. It runs a case. The first line that is read names a subject, and each
//! further line is a command to it, whose answer is printed. `tests/trials/README.md` lists the
//! commands.
#![tactic(auto)]

mod case;
mod crashes;
mod files;
mod gates;
mod growing;
mod killed;
mod lent;
mod making;
mod once;
mod openings;
mod play;
mod reading;
mod served;
mod single;
mod sizes;
mod space;
mod station;
mod turns;

use crate::case::{Case, FAILED, play};
use crate::files::InFiles;
use crate::openings::Openings;
use crate::single::Single;
use disk::{FileDisk, MemoryDisk};
use std::alloc::Global;
use std::fs::File;
use std::io::{BufRead, BufReader};
use std::process::ExitCode;
use std::rt::Files;
use std::sync::Wait;
use std::thread::Threads;
use std::time::Clock;

fn main(rt: HostRuntime) -> ExitCode {
    ExitCode::from(run(&rt))
}

// Runs the case on standard input, and prints its answers; the status.
fn run<R>(rt: &R) -> u8
where
    R: AllocGlobal + Input,
    R: Files<File = File> + Print + Clock + Threads + Wait + Clone + Send + Sync + Drop + 'static,
{
    let alloc = rt.alloc();
    let Ok(mut reader) = BufReader::new(alloc, rt.reader()) else {
        return FAILED;
    };
    let mut case = Case::new(alloc);
    if case.next(rt, &mut reader) {
        take_case(rt, alloc, &mut reader, &mut case);
    }
    case.close(rt)
}

// Does what the lines of a case say; the first one names the subject.
fn take_case<R, B>(rt: &R, alloc: Global, reader: &mut B, case: &mut Case)
where
    R: Files<File = File> + Print + Clock + Threads + Wait + Clone + Send + Sync + Drop + 'static,
    B: BufRead,
{
    match case.verb() {
        "files" => {
            let disk = None;
            play(rt, reader, &mut InFiles { rt, alloc, disk }, case);
        }
        "opening" => play(rt, reader, &mut Openings::new(rt, alloc), case),
        "space" => play::run::<R, B, MemoryDisk>(rt, alloc, reader, case),
        "ends" => play::run::<R, B, FileDisk>(rt, alloc, reader, case),
        "single" => play(rt, reader, &mut Single { rt, alloc }, case),
        _ => case.unknown(),
    }
}
