//! One turn of a worker. Its contract says which calls it made, but not what they did, because
//! another thread may act between any two.
ghost use Rattle.std.specs.Prelude.{◌≡◌};
ghost use Rattle.std.specs.Result.{result_err};
ghost use Rattle.workers.specs.Calls.{freed_in, received_in};
ghost use Rattle.workers.specs.Turns.{IsNew, IsTurn};

use crate::calls::{Calls, CallsMade};
use crate::gate::{Gate, Stage};
use crate::pace::Pace;
use crate::station::Station;
use crate::steps::{ask, collect, raise, save_unsaved, send_out, take_in};
use std::snapshot::Snapshot;
use std::sync::Wait;

/// What a turn did.
#[derive(Drop)]
pub struct Turn {
    /// How many new messages it received.
    pub received: u8,
    /// How many objects it freed.
    pub freed: u32,
    /// The stage at which the gate ended the worker, if it did.
    pub ended_at: Option<Stage>,
    /// Its calls, for proofs alone.
    pub past: Snapshot<CallsMade>,
}

// How many new messages a turn received, and how many objects it freed.
struct Counts {
    received: u8,
    freed: u32,
}

// Takes a turn in which nothing has been done yet. If the gate ends the worker, the error is the
// stage at which it did.
fn take_turn<R: Wait, S: Station, G: Gate>(
    rt: &R,
    calls: &mut Calls<'_, S, G>,
    node: u8,
    nodes: u8,
    number: u32,
    pace: &mut Pace,
    counts: &mut Counts,
) -> Result<(), Stage>
    requires { IsNew counts.old calls.old.past.value }
    ensures calls { IsTurn node nodes number (result_err result) calls.new.past.value }
    ensures received { counts.new.received ≡ received_in calls.new.past.value }
    ensures freed { counts.new.freed ≡ freed_in calls.new.past.value }
{
    ask(calls, node, number, Stage::Start)?;
    counts.received = take_in(rt, calls, node, nodes);
    ask(calls, node, number, Stage::TakenIn)?;
    counts.freed = collect(rt, calls, pace);
    ask(calls, node, number, Stage::Collected)?;
    save_unsaved(rt, calls, pace);
    ask(calls, node, number, Stage::Saved)?;
    send_out(rt, calls, node, nodes);
    raise(rt, calls, node);
    ask(calls, node, number, Stage::Sent)
}

/// Takes one turn for a node of a space of `nodes` nodes. The turn receives a frame from each other
/// node, ascending; scans objects until a scan fails, at most 8 times; passes the token on; and
/// sweeps 64 slots. If there is nothing to sweep, it reclaims when the pace says so. It saves the
/// node if something is unsaved, and sends a frame to each other node, ascending. At node 0 it then
/// raises the last ended cycle on the board.
///
/// The gate is asked at the start, after the frames, after the sweep, after the save and at the
/// end. If it ends the worker, the turn ends there. A call that fails doesn't change the order: the
/// turn continues with the next one.
pub fn turn_node<R: Wait, S: Station, G: Gate>(
    rt: &R,
    station: &S,
    gate: &G,
    node: u8,
    nodes: u8,
    turn: u32,
    pace: &mut Pace,
) -> Turn
    ensures calls { IsTurn node nodes turn result.ended_at result.past.value }
    ensures received { result.received ≡ received_in result.past.value }
    ensures freed { result.freed ≡ freed_in result.past.value }
{
    let mut calls = Calls::new(station, gate);
    let mut counts = Counts {
        received: 0,
        freed: 0,
    };
    let ended_at = take_turn(rt, &mut calls, node, nodes, turn, pace, &mut counts).err();
    let Counts { received, freed } = counts;
    Turn {
        received,
        freed,
        ended_at,
        past: calls.into_past(),
    }
}
