//! Runs of a worker on a station whose node makes objects, so that the worker reclaims now and
//! then.
use crate::case::Case;
use ids::Refusal;
use model::{Answer, Event, Scope};
use std::cell::Cell;
use std::sync::Wait;
use wire::{Inbound, Outbound, Raised};
use workers::{Gate, Look, Point, Reclaims, Station, Stop, run_node};

// A station whose node has more objects each time a worker looks at it. A reclaim of all leaves a
// number of them, one of the young a number of those that were made since the last reclaim. It is
// its own gate, which ends no worker.
#[derive(Drop)]
struct Growing {
    live: Cell<u32>,
    old: Cell<u32>,
    made: u32,
    kept: u32,
    kept_young: u32,
    // How many reclaims there were of the young, and of all.
    young: Cell<u32>,
    all: Cell<u32>,
}

impl Growing {
    // Frees all objects but this many; the others are old.
    fn leave(&self, left: u32) -> Result<Answer, Refusal> {
        let freed = self.live.get().saturating_sub(left);
        self.live.set(left);
        self.old.set(left);
        Ok(Answer::Reclaimed(freed))
    }
}

// What was seen of a worker's run.
#[derive(Clone, Copy, Debug)]
struct Grown {
    freed: u64,
    young: u32,
    all: u32,
}

impl Station for Growing {
    fn pump_in<R: Wait>(&self, _rt: &R, _from: u8) -> Result<Inbound, Refusal> {
        Err(Refusal::NothingToDo)
    }

    fn act<R: Wait>(&self, _rt: &R, event: &Event) -> Result<Answer, Refusal> {
        match *event {
            Event::Reclaim { scope: Scope::All } => {
                self.all.set(self.all.get().saturating_add(1));
                self.leave(self.live.get().min(self.kept))
            }
            Event::Reclaim {
                scope: Scope::Young,
            } => {
                self.young.set(self.young.get().saturating_add(1));
                let (live, old) = (self.live.get(), self.old.get());
                self.leave(live.min(old.saturating_add(self.kept_young)))
            }
            _ => Err(Refusal::NothingToDo),
        }
    }

    fn look<R: Wait>(&self, _rt: &R) -> Look {
        let live = self.live.get().saturating_add(self.made);
        self.live.set(live);
        Look {
            live,
            unsaved: false,
        }
    }

    fn save<R: Wait>(&self, _rt: &R) -> Result<(), Refusal> {
        Ok(())
    }

    fn pump_out<R: Wait>(&self, _rt: &R, _to: u8) -> Result<Outbound, Refusal> {
        Ok(Outbound::Full)
    }

    fn raise<R: Wait>(&self, _rt: &R) -> Result<Raised, Refusal> {
        Err(Refusal::NotDirector)
    }
}

impl Gate for Growing {
    fn at(&self, _point: Point) {}
}

/// `grow SLOTS TURNS MADE YOUNG KEPT`: a worker takes this many turns, in each of which the node
/// makes MADE objects. A reclaim of the young leaves YOUNG of those made since the last reclaim,
/// one of all KEPT. Prints how many were freed, and how many reclaims there were of both kinds. In
/// a space without slots, workers don't reclaim.
pub(crate) fn grow<R: Wait>(rt: &R, case: &mut Case) {
    let slots = case.number(1);
    let reclaims = if slots > 0 {
        Reclaims::Within(slots)
    } else {
        Reclaims::Never
    };
    let growing = Growing {
        live: Cell::new(0),
        old: Cell::new(0),
        made: case.number(3),
        kept_young: case.number(4),
        kept: case.number(5),
        young: Cell::new(0),
        all: Cell::new(0),
    };
    let (turns, stop) = (case.number(2), Stop::new());
    let run = run_node(rt, &growing, &growing, 0, 2, turns, reclaims, &stop);
    case.debug(&Grown {
        freed: run.report.freed,
        young: growing.young.get(),
        all: growing.all.get(),
    });
}
