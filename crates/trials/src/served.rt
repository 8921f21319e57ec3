//! What a program finds in a new space that is served, when it begins.
use crate::case::Case;
use cell::Naming;
use disk::Disk;
use ids::Refusal;
use model::Answer;
use std::alloc::Global;
use std::sync::{Arc, Wait};
use std::thread::Threads;
use supervisor::{Config, Opened, Program, SpaceOn};
use workers::{Gate, Point};

// A gate that ends each worker before its first turn.
#[derive(Drop)]
struct Shut;

impl Gate for Shut {
    fn at(&self, _point: Point) {}

    fn go_on(&self, _point: Point) -> bool {
        false
    }
}

// A program that looks at the trace of each cell, and then begins a cycle.
#[derive(Drop)]
struct Finding {
    found: Option<Found>,
}

// How many calls the cells of nodes 0 and 1 had, and the answer to Begin.
#[derive(Clone, Copy)]
struct Found {
    calls: [usize; 2],
    begun: Result<Answer, Refusal>,
}

impl<R: Wait, D: Disk + Drop> Program<R, D> for Finding {
    fn run<W: Naming>(&mut self, rt: &R, space: &SpaceOn<D, W>) {
        self.found = find(rt, space);
    }
}

fn find<R: Wait, D: Disk + Drop, W: Naming>(rt: &R, space: &SpaceOn<D, W>) -> Option<Found> {
    let calls = [calls_of(rt, space, 0)?, calls_of(rt, space, 1)?];
    let begun = space.begin(rt);
    Some(Found { calls, begun })
}

// How many calls the trace of a node's cell has.
fn calls_of<R, D, W>(rt: &R, space: &SpaceOn<D, W>, node: u8) -> Option<usize>
where
    R: Wait,
    D: Disk + Drop,
    W: Naming,
{
    let lines = space.program(node)?.trace_lines(rt).ok()?;
    Some(lines.len())
}

// What the program finds in a space of this configuration on these disks.
fn served<R, D>(rt: &R, alloc: Global, text: &str, disks: Vec<D>) -> Option<Found>
where
    R: Threads + Wait + Clone + Send + Drop + 'static,
    D: Disk + Send + Drop + 'static,
{
    let config = Config::from_text(alloc, text).ok()?;
    let gate = Arc::new(alloc, Shut).ok()?;
    let Ok(opened) = Opened::open(alloc, &config, disks) else {
        return None;
    };
    let mut program = Finding { found: None };
    let Ok(_served) = opened.serve(rt, gate, &mut program) else {
        return None;
    };
    program.found
}

/// Prints what the program finds: `calls`, the number of calls of each cell; `cycle`, the answer
/// when it begins a cycle.
pub(crate) fn show_served<R, D>(rt: &R, alloc: Global, text: &str, disks: Vec<D>, case: &mut Case)
where
    R: Threads + Wait + Clone + Send + Drop + 'static,
    D: Disk + Send + Drop + 'static,
{
    let Some(found) = served(rt, alloc, text, disks) else {
        case.text("None");
        return;
    };
    match case.word(2) {
        "calls" => case.debug(&found.calls),
        _ => case.answer(found.begun),
    }
}
