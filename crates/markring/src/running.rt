//! Runs a script on node threads. The main thread acts as the program of every node, next to a
//! worker for each. To wait for something, it polls.
ghost use Rattle.std.specs.Prelude.{◌≡◌, ◌≤◌, ◌++◌, ◌∷◌, [], IfOk, OnOk, Some, codes, map, string_bytes, true};
ghost use Rattle.std.specs.Arc.{arc_value};
ghost use Rattle.std.specs.Io.KnownBytes.{Appends};
ghost use Rattle.ids.specs.declared.refusal.Refusal.TheVariants.{Memory};
ghost use Rattle.script.specs.RunLines.{is_own_said, plain_said};
ghost use Rattle.script.specs.Text.{refused_text};
ghost use Rattle.wire.specs.Readers.{IsWatchOf};
ghost use Rattle.markring.specs.Told.{IsAnswer, IsAwaited, IsEnd, IsTold, IsToldOf, IsVerdict};
ghost use Rattle.markring.specs.Told.{PrintsLine, PrintsTold};
ghost use Rattle.markring.specs.Told.{is_only_wide, status_after, told_of, told_text, trace_text};

use crate::asking::{LastRefusal, accept_last, act};
use crate::bytes::{Bytes, letter, read, write};
use commands::{Writing, next_line};
use disk::{Disk, FileDisk, MemoryDisk};
use ids::Refusal;
use model::{Answer, Event, Outcome};
use script::{OutcomeText, RunLine};
use std::alloc::Global;
use std::fs::File;
use std::io::Write;
use std::rt::Files;
use std::sync::{Arc, Wait};
use std::thread::Threads;
use std::time::{Clock, Duration};
use std::{io, thread};
use supervisor::{Config, LastLook, OpenFault, Space};
use wire::Watch;
use words::{DONE, REFUSED, UNREADABLE};
use workers::{Gate, Point, Stage};

/// How many microseconds a worker pauses before a turn, per node of the space. In a round of turns
/// there is a frame for each pair of nodes, so larger spaces pause longer.
const PAUSE: u64 = 500;

/// The interval between two polls, in microseconds.
const LOOK: u64 = 500;

/// The outcome of a script's line.
#[derive(Drop)]
pub(crate) enum Told {
    /// Nothing is printed.
    Nothing,
    Outcome(Outcome),
    /// The texts of a node's last calls.
    Trace(Vec<String>),
    /// Bytes of an object, as text.
    Bytes(String),
    Refused(Refusal),
    /// All workers had ended, and a node then refused to accept a letter.
    NotAccepted(LastRefusal),
    /// All workers had ended, and what the watch showed after that is an earlier cycle.
    NoVerdict(LastLook),
    /// The line is outside the grammar.
    NoCommand,
}

/// A gate that pauses before each turn, so that workers with nothing to do leave the processors to
/// others.
#[derive(Drop)]
struct Pause<R> {
    rt: R,
    pause: Duration,
}

impl<R: Clock> Gate for Pause<R> {
    fn at(&self, point: Point) {
        if point.stage == Stage::Start {
            thread::sleep(&self.rt, self.pause);
        }
    }
}

/// Runs a script on node threads, as the configuration says, and returns the exit status:
///
/// - 0 if no line was refused
/// - 1 if the space couldn't be opened or started, a line was refused, a cycle didn't end, a node
///   couldn't be saved at the end, memory ran out, or the output failed
/// - 2 if the configuration is rejected, or a line is outside the grammar, which is then the last
///   one
pub fn run<R, W: Write>(rt: &R, alloc: Global, config: &str, script: &str, out: &mut W) -> u8
where
    R: Files<File = File> + Clock + Threads + Wait + Clone + Send + Sync + Drop + 'static,
    ensures { result ≤ 2 }
{
    let done = match Config::from_text(alloc, config) {
        Ok(config) => run_config(rt, alloc, &config, script, out),
        Err(OpenFault::Memory) => print_memory(out),
        Err(_) => print_refused_config(out),
    };
    match done {
        Ok(status) => status,
        Err(_) => REFUSED,
    }
}

// Prints that memory ran out, and returns the status.
fn print_memory<W: Write>(out: &mut W) -> io::Result<u8>
    ensures { IfOk result (λ status. (status ≡ 1)
        × Appends (W.contents out.old) (W.contents out.new) (refused_text Memory ++ 10 ∷ [])) }
{
    writeln!(out, "refused {}", Refusal::Memory)?;
    out.flush()?;
    Ok(REFUSED)
}

// Prints that the configuration is rejected, and returns the status.
fn print_refused_config<W: Write>(out: &mut W) -> io::Result<u8>
    ensures { IfOk result (λ status. (status ≡ 2)
        × Appends (W.contents out.old) (W.contents out.new) (codes "config refused" ++ 10 ∷ [])) }
{
    writeln!(out, "config refused")?;
    out.flush()?;
    Ok(UNREADABLE)
}

// Opens the disks that the configuration names, and runs the script on them.
fn run_config<R, W: Write>(
    rt: &R,
    alloc: Global,
    config: &Config,
    script: &str,
    out: &mut W,
) -> io::Result<u8>
where
    R: Files<File = File> + Clock + Threads + Wait + Clone + Send + Sync + Drop + 'static,
    ensures { IfOk result (λ status. status ≤ 2) }
{
    let nodes = config.shape.nodes();
    match &config.folder {
        Some(folder) => {
            // Files that take the numbers of closed standard streams, so that no disk gets one.
            let _low = low_files(rt, alloc);
            match FileDisk::each_in(rt, alloc, folder.as_str(), nodes, config.seals) {
                Ok(disks) => run_disks(rt, alloc, config, disks, script, out),
                Err(_) => print_unopened(out),
            }
        }
        None => match memory_disks(alloc, nodes) {
            Ok(disks) => run_disks(rt, alloc, config, disks, script, out),
            Err(_) => print_unopened(out),
        },
    }
}

// Three open files, or fewer if the system refuses some.
fn low_files<R: Files<File = File>>(rt: &R, _alloc: Global) -> [Option<File>; 3] {
    let first = File::open(rt, "/dev/null").ok();
    let second = File::open(rt, "/dev/null").ok();
    let third = File::open(rt, "/dev/null").ok();
    [first, second, third]
}

// A new disk in memory for each node.
fn memory_disks(alloc: Global, nodes: u8) -> Result<Vec<MemoryDisk>, Refusal> {
    let mut disks = Vec::new(alloc);
    for _ in 0..nodes {
        disks.push(MemoryDisk::new(alloc))?;
    }
    Ok(disks)
}

// Prints that the space can't be opened, and returns the status.
fn print_unopened<W: Write>(out: &mut W) -> io::Result<u8>
    ensures { IfOk result (λ status. (status ≡ 1)
        × Appends (W.contents out.old) (W.contents out.new) (codes "open refused" ++ 10 ∷ [])) }
{
    writeln!(out, "open refused")?;
    out.flush()?;
    Ok(REFUSED)
}

// Opens a space on disks, starts its workers, runs the script, and closes the space.
fn run_disks<R, D, W: Write>(
    rt: &R,
    alloc: Global,
    config: &Config,
    disks: Vec<D>,
    script: &str,
    out: &mut W,
) -> io::Result<u8>
where
    R: Clock + Threads + Wait + Clone + Send + Sync + Drop + 'static,
    D: Disk + Send + Drop + 'static,
    ensures { IfOk result (λ status. status ≤ 2) }
{
    let Ok(mut space) = Space::open(alloc, config, disks) else {
        return print_unopened(out);
    };
    let Some(mut watch) = space.watch() else {
        return print_unopened(out);
    };
    let Ok(gate) = gate(rt, alloc, config.shape.nodes()) else {
        return print_unopened(out);
    };
    if space.start(rt, gate).is_err() {
        return print_unopened(out);
    }
    let bytes = Bytes {
        alloc,
        wide: config.shape.is_wide(),
    };
    let status = run_lines(rt, &space, bytes, &mut watch, script, out);
    let saved = save_all(rt, &space, config.shape.nodes());
    let _ = space.close(rt);
    Ok(status?.max(saved))
}

// The gate that all workers are given.
fn gate<R: Clone + Drop>(rt: &R, alloc: Global, nodes: u8) -> Result<Arc<Pause<R>>, Refusal> {
    let rt = rt.clone()?;
    let pause = Duration::from_micros(PAUSE * u64::from(nodes));
    Ok(Arc::new(alloc, Pause { rt, pause })?)
}

// Saves the nodes that have unsaved events, so that no effect of the script is lost, and returns
// the status.
fn save_all<R: Wait, D: Disk + Drop>(rt: &R, space: &Space<D>, nodes: u8) -> u8
    ensures { result ≤ 2 }
{
    let mut status = DONE;
    for node in 0..nodes {
        if let Some(program) = space.program(node)
            && program.unsaved(rt)
            && program.save(rt).is_err()
        {
            status = REFUSED;
        }
    }
    status
}

// Runs a script's lines, and returns the status. It fails if the output does.
fn run_lines<R: Clock + Wait, D: Disk + Drop, W: Write>(
    rt: &R,
    space: &Space<D>,
    bytes: Bytes,
    watch: &mut Watch,
    script: &str,
    out: &mut W,
) -> io::Result<u8>
    requires { IsWatchOf (arc_value space.now.wire) watch.old }
    ensures told { IfOk result (λ status.
        PrintsTold bytes.wide script.now status (W.contents out.old) (W.contents out.new)) }
    ensures small { IfOk result (λ status. status ≤ 2) }
{
    let mut status = DONE;
    let mut rest = script;
    let mut number = 0;
    while !rest.is_empty() {
        let (text, others) = next_line(rest);
        rest = others;
        number += 1;
        let reached = run_line(rt, space, bytes, watch, number, text, out)?;
        status = status.max(reached);
        if reached == UNREADABLE {
            return Ok(status);
        }
    }
    Ok(status)
}

// Does what the line of this number says, prints the outcome, and returns the line's status.
fn run_line<R: Clock + Wait, D: Disk + Drop, W: Write>(
    rt: &R,
    space: &Space<D>,
    bytes: Bytes,
    watch: &mut Watch,
    number: usize,
    text: &str,
    out: &mut W,
) -> io::Result<u8>
    requires { IsWatchOf (arc_value space.now.wire) watch.old }
    ensures watch { IsWatchOf (arc_value space.now.wire) watch.new }
    ensures told { IfOk result
        (PrintsLine bytes.wide text.now number (W.contents out.old) (W.contents out.new)) }
{
    let told = take_line(rt, space, bytes, watch, text);
    print_told(out, number, &told)?;
    Ok(status_after(&told))
}

// Does what the line says.
fn take_line<R: Clock + Wait, D: Disk + Drop>(
    rt: &R,
    space: &Space<D>,
    bytes: Bytes,
    watch: &mut Watch,
    text: &str,
) -> Told
    requires { IsWatchOf (arc_value space.now.wire) watch.old }
    ensures watch { IsWatchOf (arc_value space.now.wire) watch.new }
    ensures told { IsTold bytes.wide text.now result }
{
    match RunLine::parse(bytes.wide, text) {
        Some(said) => take_said(rt, space, bytes, watch, &said),
        None => Told::NoCommand,
    }
}

// The same for a line that was read.
fn take_said<R: Clock + Wait, D: Disk + Drop>(
    rt: &R,
    space: &Space<D>,
    bytes: Bytes,
    watch: &mut Watch,
    said: &RunLine,
) -> Told
    requires watch { IsWatchOf (arc_value space.now.wire) watch.old }
    requires own { is_own_said said.now ≡ true }
    ensures watch { IsWatchOf (arc_value space.now.wire) watch.new }
    ensures told { IsToldOf (Some (plain_said said.now)) result }
{
    match said {
        RunLine::Blank => Told::Nothing,
        RunLine::Act(node, event) => told_of(act(rt, space, *node, event)),
        RunLine::Restart(node) => match space.restart(rt, *node) {
            Ok(()) => Told::Outcome(Outcome::Done),
            Err(refusal) => Told::Refused(refusal),
        },
        RunLine::SetBytes { .. }
        | RunLine::Patch { .. }
        | RunLine::Bytes { .. }
        | RunLine::Post { .. }
        | RunLine::Letter(_) => only_wide(rt, space, bytes.alloc, said),
        RunLine::Cycle => cycle(rt, space, watch),
        RunLine::Await { node, register } => await_letter(rt, space, *node, *register),
        RunLine::Trace(node) => match trace(rt, space, *node) {
            Ok(texts) => Told::Trace(texts),
            Err(refusal) => Told::Refused(refusal),
        },
    }
}

// Does what a line says about bytes, which only wide spaces have.
fn only_wide<R: Wait, D: Disk + Drop>(
    rt: &R,
    space: &Space<D>,
    alloc: Global,
    said: &RunLine,
) -> Told
    requires { is_only_wide said.now ≡ true }
    ensures { IsToldOf (Some (plain_said said.now)) result }
{
    match *said {
        RunLine::SetBytes { node, object, hex } => {
            write(rt, space, alloc, node, Writing::All { object }, hex)
        }
        RunLine::Patch {
            node,
            object,
            offset,
            hex,
        } => write(
            rt,
            space,
            alloc,
            node,
            Writing::Part { object, offset },
            hex,
        ),
        RunLine::Post {
            node,
            to,
            label,
            first,
            count,
            hex,
        } => {
            let letter = Writing::Letter {
                to,
                label,
                first,
                count,
            };
            write(rt, space, alloc, node, letter, hex)
        }
        RunLine::Bytes {
            node,
            object,
            offset,
            count,
        } => read(rt, space, alloc, node, object, offset, count),
        RunLine::Letter(node) => letter(rt, space, alloc, node),
        _ => unreachable!(),
    }
}

pub(crate) fn told_of(answered: Result<Answer, Refusal>) -> Told
    ensures told { result ≡ told_of answered }
    ensures answer { IsAnswer result }
{
    match answered {
        Ok(answer) => Told::Outcome(Outcome::Answer(answer)),
        Err(refusal) => Told::Refused(refusal),
    }
}

// The texts of a node's last calls.
fn trace<R: Wait, D: Disk + Drop>(
    rt: &R,
    space: &Space<D>,
    node: u8,
) -> Result<Vec<String>, Refusal> {
    match space.program(node) {
        Some(program) => program.trace_lines(rt),
        None => Err(Refusal::NoNode),
    }
}

// Begins a cycle, and looks at the board until it shows that cycle or all workers have ended.
fn cycle<R: Clock + Wait, D: Disk + Drop>(rt: &R, space: &Space<D>, watch: &mut Watch) -> Told
    requires { IsWatchOf (arc_value space.now.wire) watch.old }
    ensures watch { IsWatchOf (arc_value space.now.wire) watch.new }
    ensures told { IsEnd result }
{
    match space.begin(rt) {
        Ok(Answer::Begun(cycle)) => await_end(rt, space, watch, cycle),
        answered => told_of(answered),
    }
}

fn await_end<R: Clock + Wait, D: Disk + Drop>(
    rt: &R,
    space: &Space<D>,
    watch: &mut Watch,
    cycle: u64,
) -> Told
    requires { IsWatchOf (arc_value space.now.wire) watch.old }
    ensures watch { IsWatchOf (arc_value space.now.wire) watch.new }
    ensures told { IsVerdict cycle result }
{
    for _ in rt.forever() {
        if let Some(ended) = space.ended() {
            return verdict(space.look_last(ended, watch), cycle);
        }
        if space.look(watch).number >= cycle {
            return Told::Outcome(Outcome::Answer(Answer::Ended(cycle)));
        }
        thread::sleep(rt, Duration::from_micros(LOOK));
    }
    unreachable!()
}

// What the last look says of a cycle.
fn verdict(last: LastLook, cycle: u64) -> Told
    ensures { IsVerdict cycle result }
{
    if last.cycle().number >= cycle {
        Told::Outcome(Outcome::Answer(Answer::Ended(cycle)))
    } else {
        Told::NoVerdict(last)
    }
}

// Waits for a letter and accepts it. The call also ends if the event fails for another reason, or
// if there was no letter even after all workers had ended.
fn await_letter<R: Clock + Wait, D: Disk + Drop>(
    rt: &R,
    space: &Space<D>,
    node: u8,
    register: u16,
) -> Told
    ensures { IsAwaited result }
{
    for _ in rt.forever() {
        if let Some(ended) = space.ended() {
            return told_last(accept_last(rt, space, node, register, ended));
        }
        match act(rt, space, node, &Event::Accept { register }) {
            Err(Refusal::NoLetter) => {}
            answered => return told_of(answered),
        }
        thread::sleep(rt, Duration::from_micros(LOOK));
    }
    unreachable!()
}

// What the last try to accept a letter answered.
fn told_last(answered: Result<Answer, LastRefusal>) -> Told
    ensures { IsAwaited result }
{
    match answered {
        Ok(answer) => Told::Outcome(Outcome::Answer(answer)),
        Err(last) => Told::NotAccepted(last),
    }
}

// Prints the outcome of the line of this number.
fn print_told<W: Write>(out: &mut W, number: usize, told: &Told) -> io::Result<()>
    ensures { OnOk result
        (Appends (W.contents out.old) (W.contents out.new) (told_text number told.now)) }
{
    write_told(out, number, told)?;
    out.flush()
}

// The same, but what is written may stay in a buffer.
fn write_told<W: Write>(out: &mut W, number: usize, told: &Told) -> io::Result<()>
    ensures { OnOk result
        (Appends (W.contents out.old) (W.contents out.new) (told_text number told.now)) }
{
    match told {
        Told::Nothing => Ok(()),
        Told::Outcome(outcome) => writeln!(out, "{}", OutcomeText(*outcome)),
        Told::Trace(texts) => print_texts(out, texts.as_slice()),
        Told::Bytes(text) => writeln!(out, "{text}"),
        Told::Refused(refusal) => writeln!(out, "refused {refusal}"),
        Told::NotAccepted(last) => writeln!(out, "refused {}", last.refusal()),
        Told::NoVerdict(_) => writeln!(out, "no verdict"),
        Told::NoCommand => writeln!(out, "line {number}: not a command"),
    }
}

// Prints texts, one on each line, or `-` if there aren't any.
fn print_texts<W: Write>(out: &mut W, texts: &[String]) -> io::Result<()>
    ensures { OnOk result (Appends (W.contents out.old) (W.contents out.new)
        (trace_text (map string_bytes texts.now))) }
{
    if texts.is_empty() {
        return writeln!(out, "-");
    }
    for text in texts {
        writeln!(out, "{text}")?;
    }
    Ok(())
}

// The status of a line with this outcome. The script's status is the greatest of these.
fn status_after(told: &Told) -> u8
    ensures { result ≡ status_after told.now }
{
    match told {
        Told::Nothing | Told::Outcome(_) | Told::Trace(_) | Told::Bytes(_) => DONE,
        Told::Refused(_) | Told::NotAccepted(_) | Told::NoVerdict(_) => REFUSED,
        Told::NoCommand => UNREADABLE,
    }
}
