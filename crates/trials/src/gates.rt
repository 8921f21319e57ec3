//! Gates of workers, which pause before each turn and may hold a worker up or end it, as the case
//! says. Pollers pause for the same time.
use crate::case::Case;
use std::alloc::{AllocError, Global};
use std::sync::Wait;
use std::sync::atomic::{AtomicBool, AtomicU64, Ordering};
use std::thread;
use std::time::{Clock, Duration};
use workers::{Gate, Point, Stage};

// How many microseconds a worker pauses before each turn, and a poller before it looks again.
const PAUSE: u64 = 200;

// On average, a worker that ends at random does so at one in this many points.
const POINTS: u64 = 400;

// How many nodes a gate knows.
const NODES: usize = 64;

// How many microseconds a worker waits before it ends late.
const LATE: u64 = 100_000;

/// Sleeps as long as a worker pauses before each turn.
pub(crate) fn pause<R: Clock>(rt: &R) {
    thread::sleep(rt, Duration::from_micros(PAUSE));
}

// A stage of the turns of a node's worker. A node's workers are counted from 1.
#[derive(Clone, Copy, PartialEq, Eq)]
struct Place {
    node: u8,
    worker: u64,
    stage: Stage,
}

// A worker waits at a place until some worker of a node has been at a stage.
#[derive(Clone, Copy)]
struct Hold {
    place: Place,
    until: (u8, Stage),
}

// A worker ends at a place in this turn.
#[derive(Clone, Copy)]
struct End {
    place: Place,
    turn: u32,
}

/// The places at which workers wait, and those at which they end.
#[derive(Drop)]
pub(crate) struct Rules {
    holds: Vec<Hold>,
    ends: Vec<End>,
    // If it is there, workers also end at the pseudorandom points that it determines.
    seed: Option<u64>,
    // Whether a worker waits a while before it ends.
    is_late: bool,
}

impl Rules {
    /// No worker waits or ends.
    pub(crate) fn new(alloc: Global) -> Rules {
        Rules {
            holds: Vec::new(alloc),
            ends: Vec::new(alloc),
            seed: None,
            is_late: false,
        }
    }
}

/// The stage of a turn that the word in this place names.
pub(crate) fn stage_in(case: &mut Case, place: usize) -> Stage {
    match case.word(place) {
        "Start" => return Stage::Start,
        "TakenIn" => return Stage::TakenIn,
        "Collected" => return Stage::Collected,
        "Saved" => return Stage::Saved,
        "Sent" => return Stage::Sent,
        _ => case.unknown(),
    }
    Stage::Start
}

// The place that the words after the first one name: `NODE WORKER STAGE`.
fn place_in(case: &mut Case) -> Place {
    Place {
        node: case.number(1),
        worker: case.number(2),
        stage: stage_in(case, 3),
    }
}

/// Adds a rule, as the line says.
pub(crate) fn rule(rules: &mut Rules, case: &mut Case) {
    match case.verb() {
        "random" => rules.seed = Some(case.number(1)),
        "late" => rules.is_late = true,
        "end" => {
            let end = End {
                place: place_in(case),
                turn: case.number(4),
            };
            case.needs(rules.ends.push(end).is_ok());
        }
        _ => {
            let hold = Hold {
                place: place_in(case),
                until: (case.number(4), stage_in(case, 5)),
            };
            case.needs(rules.holds.push(hold).is_ok());
        }
    }
}

/// A gate that pauses before each turn, and then does what its rules say.
#[derive(Drop)]
pub(crate) struct Ruled<R> {
    rt: R,
    rules: Rules,
    // How often it was asked whether a worker continues.
    asked: AtomicU64,
    // For each node, how many workers began, and how many ended that weren't counted yet.
    begun: Vec<AtomicU64>,
    ended: Vec<AtomicU64>,
    // For each stage of each node, whether a worker was there.
    seen: Vec<AtomicBool>,
}

// How many stages a turn has.
const STAGES: usize = 5;

// The place at which a gate records that a worker of this node was at this stage.
fn index(node: u8, stage: Stage) -> usize {
    let place = match stage {
        Stage::Start => 0,
        Stage::TakenIn => 1,
        Stage::Collected => 2,
        Stage::Saved => 3,
        Stage::Sent => 4,
    };
    STAGES * usize::from(node) + place
}

// A pseudorandom number, the same one for each argument.
fn mixed(number: u64) -> u64 {
    let first = number.wrapping_mul(0x9E37_79B9_7F4A_7C15);
    let second = (first ^ (first >> 30)).wrapping_mul(0xBF58_476D_1CE4_E5B9);
    second ^ (second >> 27)
}

impl<R> Ruled<R> {
    /// A gate with these rules.
    pub(crate) fn new(rt: R, alloc: Global, rules: Rules) -> Result<Ruled<R>, AllocError>
    where
        R: Drop,
    {
        let mut begun = Vec::new(alloc);
        let mut ended = Vec::new(alloc);
        let mut seen = Vec::new(alloc);
        for _ in 0..NODES {
            begun.push(AtomicU64::new(0))?;
            ended.push(AtomicU64::new(0))?;
        }
        for _ in 0..NODES * STAGES {
            seen.push(AtomicBool::new(false))?;
        }
        Ok(Ruled {
            rt,
            rules,
            asked: AtomicU64::new(0),
            begun,
            ended,
            seen,
        })
    }

    /// How many workers of this node it has ended since the last call that said so.
    pub(crate) fn take_ended(&self, node: u8) -> u64 {
        match self.ended.get(usize::from(node)) {
            Some(ended) => ended.swap(0, Ordering::SeqCst),
            None => 0,
        }
    }

    // The place of the node's present worker.
    fn place(&self, point: Point) -> Place {
        let Point { node, stage, .. } = point;
        let worker = match self.begun.get(usize::from(node)) {
            Some(begun) => begun.load(Ordering::SeqCst),
            None => 0,
        };
        Place {
            node,
            worker,
            stage,
        }
    }

    // Whether the worker ends at this point.
    fn ends(&self, point: Point) -> bool {
        let place = self.place(point);
        for end in &self.rules.ends {
            if end.place == place && end.turn == point.turn {
                return true;
            }
        }
        match self.rules.seed {
            Some(seed) => {
                let number = self.asked.fetch_add(1, Ordering::SeqCst);
                mixed((seed << 32) ^ number) % POINTS == 0
            }
            None => false,
        }
    }
}

// Waits until the flag is set.
fn await_flag<R: Clock + Wait>(rt: &R, flag: &AtomicBool) {
    for _ in rt.forever() {
        if flag.load(Ordering::SeqCst) {
            return;
        }
        pause(rt);
    }
}

impl<R: Clock + Wait> Gate for Ruled<R> {
    fn at(&self, point: Point) {
        if point.stage == Stage::Start {
            pause(&self.rt);
            if point.turn == 1
                && let Some(begun) = self.begun.get(usize::from(point.node))
            {
                begun.fetch_add(1, Ordering::SeqCst);
            }
        }
        if let Some(seen) = self.seen.get(index(point.node, point.stage)) {
            seen.store(true, Ordering::SeqCst);
        }
        let place = self.place(point);
        for hold in &self.rules.holds {
            if hold.place == place
                && let Some(flag) = self.seen.get(index(hold.until.0, hold.until.1))
            {
                await_flag(&self.rt, flag);
            }
        }
    }

    fn go_on(&self, point: Point) -> bool {
        if !self.ends(point) {
            return true;
        }
        if self.rules.is_late {
            thread::sleep(&self.rt, Duration::from_micros(LATE));
        }
        if let Some(ended) = self.ended.get(usize::from(point.node)) {
            ended.fetch_add(1, Ordering::SeqCst);
        }
        false
    }
}
