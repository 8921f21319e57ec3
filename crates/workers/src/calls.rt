//! The calls of a worker's turn. A turn calls its station and its gate only through [`Calls`],
//! which adds each call to a record. So the record is what was called, in order, and a turn's
//! contract is stated in terms of it. Only proofs read it: it takes up no bytes.
ghost use Rattle.std.specs.Prelude.{◌≡◌, ◌∷◌, [], cond};
ghost use Rattle.workers.specs.Calls.{At, Pass, PumpIn, PumpOut, Raise, Reclaim, Save, Scan, Sweep};
ghost use Rattle.workers.specs.Calls as Called;
ghost use Rattle.std.specs.Option.{unwrap_or};
ghost use Rattle.workers.specs.Calls.{asked, freed_in, received_in, Adds, Makes};

use crate::gate::{Gate, Point};
use crate::station::{Look, Station};
use ids::Refusal;
use model::{Answer, Event, Scope};
use std::mem;
use std::snapshot::Snapshot;
use std::sync::Wait;
use wire::Inbound;

/// A call that a worker made, with its answer if that is counted or decides how the turn goes on.
#[derive(Clone, Copy)]
pub enum WorkerCall {
    /// The gate was told of this point, and then asked; whether the worker continues.
    At {
        point: Point,
        goes_on: bool,
    },
    /// `pump_in` from a node.
    PumpIn {
        from: u8,
        answered: Result<Inbound, Refusal>,
    },
    /// A scan.
    Scan {
        answered: Result<Answer, Refusal>,
    },
    /// An attempt to pass the token on.
    Pass,
    /// A sweep of `count` slots.
    Sweep {
        count: u32,
        answered: Result<Answer, Refusal>,
    },
    /// A reclaim.
    Reclaim {
        scope: Scope,
        answered: Result<Answer, Refusal>,
    },
    /// A look at the node, and whether anything was unsaved.
    Look {
        unsaved: bool,
    },
    /// A save of the node.
    Save,
    /// An attempt to send a frame to a node.
    PumpOut {
        to: u8,
    },
    /// The last ended cycle was raised on the board.
    Raise,
}

/// The completed calls of a turn. Only proofs read it: a snapshot takes up no bytes.
#[derive(Drop)]
pub enum CallsMade {
    Start,
    Then {
        before: Snapshot<CallsMade>,
        call: WorkerCall,
    },
}

/// The station and the gate of a worker, with the record of a turn's calls. Each method makes one
/// call and adds it. Nothing else has the station or the gate, or changes the record.
#[derive(Drop)]
pub(crate) struct Calls<'a, S, G> {
    station: &'a S,
    gate: &'a G,
    past: Snapshot<CallsMade>,
}

impl<'a, S: Station, G: Gate> Calls<'a, S, G> {
    /// No calls yet.
    pub(crate) fn new(station: &'a S, gate: &'a G) -> Self
        ensures asked { asked result.past.value ≡ [] }
        ensures received { received_in result.past.value ≡ 0 }
        ensures freed { freed_in result.past.value ≡ 0 }
    {
        Calls {
            station,
            gate,
            past: Snapshot::of(&CallsMade::Start),
        }
    }

    /// The record.
    pub(crate) fn into_past(self) -> Snapshot<CallsMade>
        ensures { result ≡ self.entry.past }
    {
        let Calls { past, .. } = self;
        past
    }

    fn note(&mut self, call: WorkerCall)
        ensures { Adds call self.old.past.value self.new.past.value }
    {
        let before = mem::replace(&mut self.past, Snapshot::of(&CallsMade::Start));
        self.past = Snapshot::of(&CallsMade::Then { before, call });
    }

    /// Calls `at` of the gate, and then `go_on`, which returns whether the worker continues.
    pub(crate) fn ask(&mut self, point: Point) -> bool
        ensures { Makes (At point result ∷ []) 0 0 self.old.past.value self.new.past.value }
    {
        self.gate.at(point);
        let goes_on = self.gate.go_on(point);
        self.note(WorkerCall::At { point, goes_on });
        goes_on
    }

    /// Receives a frame or a waiting message from another node; returns whether it was a new
    /// message.
    pub(crate) fn take<R: Wait>(&mut self, rt: &R, from: u8) -> bool
        ensures { Makes (PumpIn from ∷ []) (cond result 1 0) 0
            self.old.past.value self.new.past.value }
    {
        let answered = self.station.pump_in(rt, from);
        self.note(WorkerCall::PumpIn { from, answered });
        match answered {
            Ok(Inbound::Event(Answer::Received)) => true,
            Ok(_) | Err(_) => false,
        }
    }

    /// Scans an object; returns whether there was one.
    pub(crate) fn scan<R: Wait>(&mut self, rt: &R) -> bool
        ensures { Makes (Scan result ∷ []) 0 0 self.old.past.value self.new.past.value }
    {
        let answered = self.station.act(rt, &Event::Scan);
        self.note(WorkerCall::Scan { answered });
        answered.is_ok()
    }

    /// Passes the token on, if the node may.
    pub(crate) fn pass<R: Wait>(&mut self, rt: &R)
        ensures { Makes (Pass ∷ []) 0 0 self.old.past.value self.new.past.value }
    {
        let _ = self.station.act(rt, &Event::Pass);
        self.note(WorkerCall::Pass);
    }

    /// Sweeps slots; returns how many objects it freed, or `None` if there is no cycle to sweep.
    pub(crate) fn sweep<R: Wait>(&mut self, rt: &R, count: u32) -> Option<u32>
        ensures { Makes (Sweep count ∷ []) 0 (unwrap_or result 0)
            self.old.past.value self.new.past.value }
    {
        let answered = self.station.act(rt, &Event::Sweep { count });
        self.note(WorkerCall::Sweep { count, answered });
        match answered {
            Ok(Answer::Freed { count, .. }) => Some(count),
            Ok(_) | Err(_) => None,
        }
    }

    /// Reclaims; returns how many objects that freed.
    pub(crate) fn reclaim<R: Wait>(&mut self, rt: &R, scope: Scope) -> u32
        ensures { Makes (Reclaim scope ∷ []) 0 result self.old.past.value self.new.past.value }
    {
        let answered = self.station.act(rt, &Event::Reclaim { scope });
        self.note(WorkerCall::Reclaim { scope, answered });
        match answered {
            Ok(Answer::Reclaimed(count)) => count,
            Ok(_) | Err(_) => 0,
        }
    }

    /// Looks at the node.
    pub(crate) fn look<R: Wait>(&mut self, rt: &R) -> Look
        ensures { Makes (Called.Look result.unsaved ∷ []) 0 0
            self.old.past.value self.new.past.value }
    {
        let look = self.station.look(rt);
        let unsaved = look.unsaved;
        self.note(WorkerCall::Look { unsaved });
        look
    }

    /// Saves the node.
    pub(crate) fn save<R: Wait>(&mut self, rt: &R)
        ensures { Makes (Save ∷ []) 0 0 self.old.past.value self.new.past.value }
    {
        let _ = self.station.save(rt);
        self.note(WorkerCall::Save);
    }

    /// Sends a frame to another node, if there is room.
    pub(crate) fn send<R: Wait>(&mut self, rt: &R, to: u8)
        ensures { Makes (PumpOut to ∷ []) 0 0 self.old.past.value self.new.past.value }
    {
        let _ = self.station.pump_out(rt, to);
        self.note(WorkerCall::PumpOut { to });
    }

    /// Raises the last ended cycle on the board.
    pub(crate) fn raise<R: Wait>(&mut self, rt: &R)
        ensures { Makes (Raise ∷ []) 0 0 self.old.past.value self.new.past.value }
    {
        let _ = self.station.raise(rt);
        self.note(WorkerCall::Raise);
    }
}
