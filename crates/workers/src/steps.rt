//! The steps of a turn. From the record of its calls, a turn's contract says which calls it made.
ghost use Rattle.std.specs.Prelude.{◌≡◌, ◌≤◌, ◌∷◌, [], ℕ, is_ok, Bool, IfErr, Option};
ghost use Rattle.model.specs.declared.age.Scope.{Scope};
ghost use Rattle.workers.specs.Calls.{Makes};
ghost use Rattle.workers.specs.Turns.{at, collects, frees, raises, reclaims, saves, scans, sends, takes};

use crate::calls::Calls;
use crate::gate::{Gate, Point, Stage};
use crate::pace::Pace;
use crate::station::Station;
use std::sync::Wait;

// The most objects that a turn scans.
const SCANS: u8 = 8;

// How many slots a turn sweeps.
const SWEPT: u32 = 64;

// Asks the gate. If the worker is to end there, that stage is the error.
pub(crate) fn ask<S: Station, G: Gate>(
    calls: &mut Calls<'_, S, G>,
    node: u8,
    turn: u32,
    stage: Stage,
) -> Result<(), Stage>
    ensures made { Makes (at node turn stage (is_ok result) ∷ []) 0 0
        calls.old.past.value calls.new.past.value }
    ensures stage { IfErr result (λ s. s ≡ stage) }
{
    if calls.ask(Point { node, turn, stage }) {
        Ok(())
    } else {
        Err(stage)
    }
}

// Receives from each other node, ascending; returns how many new messages there were.
pub(crate) fn take_in<R: Wait, S: Station, G: Gate>(
    rt: &R,
    calls: &mut Calls<'_, S, G>,
    node: u8,
    nodes: u8,
) -> u8
    ensures { Makes (takes node nodes) result 0 calls.old.past.value calls.new.past.value }
{
    let mut received = 0;
    for from in 0..nodes {
        if from != node && calls.take(rt, from) {
            received += 1;
        }
    }
    received
}

// Scans objects until a scan fails, at most 8 times.
fn scan_some<R: Wait, S: Station, G: Gate>(rt: &R, calls: &mut Calls<'_, S, G>)
    ensures { (n : ℕ) × (n ≤ 8) × Makes (scans n) 0 0 calls.old.past.value calls.new.past.value }
{
    for _place in 0..SCANS {
        if !calls.scan(rt) {
            return;
        }
    }
}

// Reclaims, if that is due; returns how many objects were freed.
fn reclaim_if_due<R: Wait, S: Station, G: Gate>(
    rt: &R,
    calls: &mut Calls<'_, S, G>,
    pace: &mut Pace,
) -> u32
    ensures { (due : Option Scope)
        × Makes (reclaims due) 0 result calls.old.past.value calls.new.past.value }
{
    let Some(scope) = pace.due() else {
        return 0;
    };
    let freed = calls.reclaim(rt, scope);
    pace.note(scope, freed);
    freed
}

// Sweeps, or reclaims if there is nothing to sweep; returns how many objects were freed.
fn free<R: Wait, S: Station, G: Gate>(rt: &R, calls: &mut Calls<'_, S, G>, pace: &mut Pace) -> u32
    ensures { (due : Option Scope)
        × Makes (frees due) 0 result calls.old.past.value calls.new.past.value }
{
    match calls.sweep(rt, SWEPT) {
        Some(freed) => freed,
        None => reclaim_if_due(rt, calls, pace),
    }
}

// Scans, passes the token on, and sweeps or reclaims; returns how many objects were freed.
pub(crate) fn collect<R: Wait, S: Station, G: Gate>(
    rt: &R,
    calls: &mut Calls<'_, S, G>,
    pace: &mut Pace,
) -> u32
    ensures { (n : ℕ) × (n ≤ 8)
        × (due : Option Scope)
        × Makes (collects n due) 0 result calls.old.past.value calls.new.past.value }
{
    scan_some(rt, calls);
    calls.pass(rt);
    free(rt, calls, pace)
}

// Saves the node, if something is unsaved.
pub(crate) fn save_unsaved<R: Wait, S: Station, G: Gate>(
    rt: &R,
    calls: &mut Calls<'_, S, G>,
    pace: &mut Pace,
)
    ensures { (b : Bool) × Makes (saves b) 0 0 calls.old.past.value calls.new.past.value }
{
    let look = calls.look(rt);
    pace.see(look.live);
    if look.unsaved {
        calls.save(rt);
    }
}

// Sends a frame to each other node, ascending.
pub(crate) fn send_out<R: Wait, S: Station, G: Gate>(
    rt: &R,
    calls: &mut Calls<'_, S, G>,
    node: u8,
    nodes: u8,
)
    ensures { Makes (sends node nodes) 0 0 calls.old.past.value calls.new.past.value }
{
    for to in 0..nodes {
        if to != node {
            calls.send(rt, to);
        }
    }
}

// Raises the last ended cycle on the board, at node 0.
pub(crate) fn raise<R: Wait, S: Station, G: Gate>(rt: &R, calls: &mut Calls<'_, S, G>, node: u8)
    ensures { Makes (raises node) 0 0 calls.old.past.value calls.new.past.value }
{
    if node == 0 {
        calls.raise(rt);
    }
}
