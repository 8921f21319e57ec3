//! Runs of a worker on a station that always has something to do. The gate ends the worker at a
//! stage of a turn.
use crate::case::Case;
use crate::gates::stage_in;
use ids::Refusal;
use model::{Answer, Event};
use std::cell::Cell;
use std::sync::Wait;
use wire::{Inbound, Outbound, Raised};
use workers::{Gate, Look, Point, Reclaims, Report, Stage, Station, Stop, run_node};

// How many objects each sweep frees.
const FREED: u32 = 2;

// A station, and its gate.
#[derive(Drop)]
struct Busy {
    // The turn and the stage at which the gate ends a worker, and the last turn of which it was
    // told.
    end: (u32, Stage),
    last: Cell<u32>,
}

impl Station for Busy {
    fn pump_in<R: Wait>(&self, _rt: &R, _from: u8) -> Result<Inbound, Refusal> {
        Ok(Inbound::Event(Answer::Received))
    }

    fn act<R: Wait>(&self, _rt: &R, event: &Event) -> Result<Answer, Refusal> {
        match event {
            Event::Sweep { .. } => Ok(Answer::Freed {
                count: FREED,
                done: false,
            }),
            _ => Err(Refusal::NothingToDo),
        }
    }

    fn look<R: Wait>(&self, _rt: &R) -> Look {
        Look {
            live: 0,
            unsaved: true,
        }
    }

    fn save<R: Wait>(&self, _rt: &R) -> Result<(), Refusal> {
        Ok(())
    }

    fn pump_out<R: Wait>(&self, _rt: &R, _to: u8) -> Result<Outbound, Refusal> {
        Ok(Outbound::Full)
    }

    fn raise<R: Wait>(&self, _rt: &R) -> Result<Raised, Refusal> {
        Err(Refusal::NotDirector)
    }
}

impl Gate for Busy {
    fn at(&self, point: Point) {
        self.last.set(point.turn);
    }

    fn go_on(&self, point: Point) -> bool {
        (point.turn, point.stage) != self.end
    }
}

// What was seen of a worker's run.
#[derive(Clone, Copy, Debug)]
struct Ran {
    report: Report,
    // The last turn of which its gate was told.
    last: u32,
    // How many workers had ended before and after it.
    ended: (u64, u64),
}

/// A worker's run: `run NODE NODES TURNS END STAGE`; or one that was asked to stop before,
/// `stopped`.
pub(crate) fn run<R: Wait>(rt: &R, case: &mut Case) {
    let busy = Busy {
        end: (case.number(4), stage_in(case, 5)),
        last: Cell::new(0),
    };
    let (node, nodes, turns) = (case.number(1), case.number(2), case.number(3));
    let stop = Stop::new();
    if case.verb() == "stopped" {
        stop.ask();
    }
    let before = stop.ended();
    let never = Reclaims::Never;
    let report = run_node(rt, &busy, &busy, node, nodes, turns, never, &stop).report;
    case.debug(&Ran {
        report,
        last: busy.last.get(),
        ended: (before, stop.ended()),
    });
}
