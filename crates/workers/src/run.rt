//! A worker's run: its turns, one after another. The worker ends at its limit, when the gate ends
//! it, or before the next turn once the workers are asked to stop. Its report sums up the turns.
ghost use Rattle.std.specs.Prelude.{◌≡◌};
ghost use Rattle.workers.specs.Runs.{IsRun};
ghost use Rattle.workers.specs.Turns.{is_whole, AddsTurn};

use crate::calls::CallsMade;
use crate::gate::{Gate, Stage};
use crate::pace::{Pace, Reclaims};
use crate::station::Station;
use crate::stop::{Asked, Counted, Stop};
use crate::turn::turn_node;
use std::snapshot::Snapshot;
use std::sync::Wait;
use std::{fmt, mem};

/// What a worker did: its node, its whole turns, the new messages that it received and the objects
/// that it freed. `ended_at` is the stage at which the gate ended it, if it did. A turn that ended
/// at its last point counts as whole. Only a worker's run makes a report.
#[derive(Clone, Copy, PartialEq, Eq)]
pub struct Report {
    pub node: u8,
    pub turns: u32,
    pub received: u64,
    pub freed: u64,
    pub ended_at: Option<Stage>,
    made: Made,
}

// So that nothing else makes a report.
#[derive(Clone, Copy, PartialEq, Eq)]
struct Made;

impl fmt::Debug for Report {
    fn fmt<W: fmt::Write>(&self, f: &mut fmt::Formatter<W>) -> fmt::Result {
        f.debug_struct("Report")
            .field("node", &self.node)
            .field("turns", &self.turns)
            .field("received", &self.received)
            .field("freed", &self.freed)
            .field("ended_at", &self.ended_at)
            .finish()
    }
}

/// The completed turns. Only proofs read it: a snapshot takes up no bytes.
#[derive(Drop)]
pub enum Turns {
    Start,
    Then {
        before: Snapshot<Turns>,
        turn: Snapshot<CallsMade>,
    },
}

/// A worker's run: its report, whether it found that the workers were asked to end, and its turns
/// for proofs alone.
#[derive(Drop)]
pub struct Run {
    pub report: Report,
    pub asked: Option<Asked>,
    /// Its end was counted.
    pub counted: Counted,
    pub turns: Snapshot<Turns>,
}

// Whether a turn that ended there is whole.
fn is_whole(ended_at: Option<Stage>) -> bool
    ensures { result ≡ is_whole ended_at }
{
    matches!(ended_at, None | Some(Stage::Sent))
}

// Adds a turn.
fn add(turns: &mut Snapshot<Turns>, turn: Snapshot<CallsMade>)
    ensures { AddsTurn turn.value turns.old.value turns.new.value }
{
    let before = mem::replace(turns, Snapshot::of(&Turns::Start));
    *turns = Snapshot::of(&Turns::Then { before, turn });
}

/// Takes `turns` turns for a node of a space of `nodes` nodes. It takes fewer only if it finds,
/// before a turn, that the workers were asked to stop, or if the gate ends this worker. Then it
/// counts the worker as ended. The report sums up the turns. `reclaims` says whether the node is to
/// reclaim.
pub fn run_node<R: Wait, S: Station, G: Gate>(
    rt: &R,
    station: &S,
    gate: &G,
    node: u8,
    nodes: u8,
    turns: u32,
    reclaims: Reclaims,
    stop: &Stop,
) -> Run
    ensures { IsRun node nodes turns result.report result.asked result.turns.value }
{
    let mut past = Snapshot::of(&Turns::Start);
    let mut over = 0;
    let mut received = 0;
    let mut freed = 0;
    let mut ended_at = None;
    let mut asked = None;
    let mut pace = Pace::new(reclaims);
    for turn in 0..turns {
        asked = stop.asked();
        if asked.is_some() || ended_at.is_some() {
            break;
        }
        let taken = turn_node(rt, station, gate, node, nodes, turn + 1, &mut pace);
        ended_at = taken.ended_at;
        if is_whole(ended_at) {
            over += 1;
        }
        received += u64::from(taken.received);
        freed += u64::from(taken.freed);
        add(&mut past, taken.past);
    }
    Run {
        report: Report {
            node,
            turns: over,
            received,
            freed,
            ended_at,
            made: Made,
        },
        asked,
        counted: stop.note_end(),
        turns: past,
    }
}
