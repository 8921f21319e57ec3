//! The program `chooser`, which `markring-restore` runs: the newest states of all nodes that go
//! together. The first line that it reads is the number of nodes. Each further line is a state of a
//! node, the oldest first: the node's number, and for each node how many messages were received of
//! it; then how many were sent to each; then how many were dropped for each. It prints the index of
//! each node's state, or `none`, or `order` and a node whose states aren't in their order.
//!
//! The status is 0 for a choice, 1 for none, 2 if the lines are wrong, and else 3.
#![tactic(auto)]

ghost use Rattle.std.specs.Prelude.{◌≡◌, ◌≤◌, ℕ, IfOk, vec_len};
ghost use Rattle.chooser.specs.Lines.{IsLine};

use restore_choice::{Answer, State, decide};
use std::alloc::{AllocError, AllocFailed, Global};
use std::io::{self, BufRead, BufReader, BufWriter, Write};
use std::process::ExitCode;

/// The most nodes that a space has.
const NODES: usize = 64;

const CHOSEN: u8 = 0;

const NONE: u8 = 1;

const WRONG: u8 = 2;

const FAILED: u8 = 3;

// Why there is no answer.
enum Fault {
    Lines,
    System,
}

impl From<AllocError> for Fault {
    fn from(_error: AllocError) -> Fault {
        Fault::System
    }
}

impl<T: Drop> From<AllocFailed<T>> for Fault {
    fn from(_error: AllocFailed<T>) -> Fault {
        Fault::System
    }
}

impl From<io::Error> for Fault {
    fn from(_error: io::Error) -> Fault {
        Fault::System
    }
}

// A line that says what one state of a node is.
#[derive(Drop)]
struct Line {
    node: usize,
    state: State,
}

fn numbers_in(alloc: Global, text: &str) -> Result<Vec<u64>, Fault> {
    let mut numbers = Vec::new(alloc);
    for word in text.split_whitespace() {
        match word.parse::<u64>() {
            Ok(number) => numbers.push(number)?,
            Err(_) => return Err(Fault::Lines),
        }
    }
    Ok(numbers)
}

fn line_of(alloc: Global, numbers: &[u64], nodes: usize) -> Result<Line, Fault>
    requires { nodes ≤ NODES }
    ensures { IfOk result (λ line. IsLine nodes numbers.now line) }
{
    if numbers.len() != 3 * nodes + 1 || numbers[0] >= nodes as u64 {
        return Err(Fault::Lines);
    }
    let (received, others) = numbers[1..].split_at(nodes);
    let (sent, dropped) = others.split_at(nodes);
    Ok(Line {
        node: numbers[0] as usize,
        state: State {
            received: received.to_vec(alloc)?,
            sent: sent.to_vec(alloc)?,
            dropped: dropped.to_vec(alloc)?,
        },
    })
}

fn nodes_in(alloc: Global, text: &str) -> Result<usize, Fault>
    ensures { IfOk result (λ nodes. nodes ≤ NODES) }
{
    let numbers = numbers_in(alloc, text)?;
    if numbers.len() != 1 || numbers[0] > NODES as u64 {
        return Err(Fault::Lines);
    }
    Ok(numbers[0] as usize)
}

// No states of any node yet.
fn no_states(alloc: Global, nodes: usize) -> Result<Vec<Vec<State>>, Fault>
    ensures { IfOk result (λ v. vec_len v ≡ nodes) }
{
    let mut histories = Vec::new(alloc);
    for _ in 0..nodes {
        histories.push(Vec::new(alloc))?;
    }
    Ok(histories)
}

// The states of each node, from the lines after the first.
fn histories<R: BufRead + Drop>(alloc: Global, reader: R) -> Result<Vec<Vec<State>>, Fault> {
    let mut lines = reader.lines(alloc);
    let Some(first) = lines.next() else {
        return Err(Fault::Lines);
    };
    let nodes = nodes_in(alloc, first?.as_str())?;
    let mut histories = no_states(alloc, nodes)?;
    for text in lines {
        let numbers = numbers_in(alloc, text?.as_str())?;
        let line = line_of(alloc, numbers.as_slice(), nodes)?;
        histories[line.node].push(line.state)?;
    }
    Ok(histories)
}

fn print_choice<W: Write>(out: &mut W, choice: &[usize]) -> io::Result<()> {
    for index in choice {
        writeln!(out, "{index}")?;
    }
    Ok(())
}

// Prints the answer; the status.
fn print_answer<W: Write>(out: &mut W, answer: &Answer) -> io::Result<u8> {
    match answer {
        Answer::Newest(choice) => {
            print_choice(out, choice.as_slice())?;
            Ok(CHOSEN)
        }
        Answer::NoneFits => {
            writeln!(out, "none")?;
            Ok(NONE)
        }
        Answer::OutOfOrder(node) => {
            writeln!(out, "order {node}")?;
            Ok(WRONG)
        }
    }
}

fn run<R: AllocGlobal + Input + Print>(rt: &R) -> Result<u8, Fault> {
    let alloc = rt.alloc();
    let found = histories(alloc, BufReader::new(alloc, rt.reader())?)?;
    let answer = decide(alloc, found.as_slice())?;
    let mut out = BufWriter::new(alloc, io::writer(rt))?;
    let status = print_answer(&mut out, &answer)?;
    out.flush()?;
    Ok(status)
}

fn main(rt: HostRuntime) -> ExitCode {
    ExitCode::from(match run(&rt) {
        Ok(status) => status,
        Err(Fault::Lines) => WRONG,
        Err(Fault::System) => FAILED,
    })
}
