//! A space of a case: what its programs do, and its workers, which a gate may hold up and end.
ghost use Rattle.std.specs.Prelude.{◌≡◌, is_some};

use crate::case::Case;
use crate::gates::{Ruled, Rules, pause, rule};
use crate::making::{Made, opened, show, show_killed};
use crate::sizes::Size;
use crate::space::Open;
use crate::station::on_station;
use cell::Shared;
use disk::Disk;
use ids::Refusal;
use std::alloc::Global;
use std::fs::File;
use std::io::BufRead;
use std::rt::Files;
use std::sync::{Arc, Wait};
use std::thread::Threads;
use std::time::{Clock, Duration};
use std::{mem, thread};
use supervisor::Space;
use workers::{Pace, Reclaims, Report, turn_node};

/// An open space, and whether its workers were started.
#[derive(Drop)]
struct Opened<D: Disk> {
    space: Space<D>,
    nodes: u8,
    is_started: bool,
    ghost started: { is_some space.team ≡ is_started },
}

impl<D: Disk + Send + Drop + 'static> Opened<D> {
    // Starts the workers, if they weren't started before.
    fn start<R>(&mut self, rt: &R, gate: Arc<Ruled<R>>) -> Result<(), Refusal>
    where
        R: Clock + Threads + Wait + Clone + Send + Sync + Drop + 'static,
    {
        if self.is_started {
            return Err(Refusal::NothingToDo);
        }
        self.space.start(rt, gate)?;
        self.is_started = true;
        Ok(())
    }

    // Starts a new worker of a node once the old one has ended.
    fn revive<R>(&mut self, rt: &R, node: u8, gate: Arc<Ruled<R>>) -> Result<(), Refusal>
    where
        R: Clock + Threads + Wait + Clone + Send + Sync + Drop + 'static,
    {
        if !self.is_started {
            return Err(Refusal::NothingToDo);
        }
        match self.space.revive(rt, node, gate) {
            Ok(_) => Ok(()),
            Err(unrevived) => Err(unrevived.refusal()),
        }
    }
}

/// The space of a case, once it is open; its gate, once its workers were started; and the rules of
/// that gate before.
#[derive(Drop)]
pub(crate) struct Play<'a, R, D: Disk> {
    rt: &'a R,
    alloc: Global,
    // The calls of disks that are to fail in the next space: the node and the number of each.
    failing: Vec<(usize, u64)>,
    opened: Option<Opened<D>>,
    gate: Option<Arc<Ruled<R>>>,
    rules: Rules,
}

/// Does what the lines of a case say. (`Play` is no `Subject`: what a method of a trait sends to a
/// thread isn't covered by its bounds.)
pub(crate) fn run<R, B, D>(rt: &R, alloc: Global, reader: &mut B, case: &mut Case)
where
    R: Files<File = File> + Print + Clock + Threads + Wait + Clone + Send + Sync + Drop + 'static,
    B: BufRead,
    D: Made + Send + Drop + 'static,
{
    let mut play: Play<'_, R, D> = Play {
        rt,
        alloc,
        failing: Vec::new(alloc),
        opened: None,
        gate: None,
        rules: Rules::new(alloc),
    };
    for _ in rt.forever() {
        if !case.next(rt, reader) {
            break;
        }
        play.take(case);
        case.flush(rt);
    }
}

impl<R, D> Play<'_, R, D>
where
    R: Files<File = File> + Print + Clock + Threads + Wait + Clone + Send + Sync + Drop + 'static,
    D: Made + Send + Drop + 'static,
{
    // Does what the line says.
    fn take(&mut self, case: &mut Case) {
        match case.verb() {
            "open" => self.open(case),
            "start" | "revive" => self.work(case),
            "close" | "ends" => self.close(case),
            "leave" => self.leave(case),
            "holders" | "ended" | "ended-and-revive" => self.ask_gate(case),
            _ => self.take_other(case),
        }
    }

    // Does what a line says that starts and ends nothing.
    fn take_other(&mut self, case: &mut Case) {
        match case.verb() {
            "hold" | "end" | "random" | "late" => {
                rule(&mut self.rules, case);
                case.text("ok");
            }
            "fail-once" => {
                let call = (case.number(1), case.number(2));
                case.needs(self.failing.push(call).is_ok());
                case.text("ok");
            }
            "meet" | "once" | "served" => show(self.rt, self.alloc, case),
            "killed" => show_killed(self.rt, self.alloc, case),
            _ => match &mut self.opened {
                Some(opened) => on_space(self.rt, opened, case),
                None => case.unknown(),
            },
        }
    }

    // `open NODES REGISTERS SLOTS TURNS ..`: replaces the space, unless the new one isn't opened.
    fn open(&mut self, case: &mut Case) {
        let size = Size {
            nodes: case.number(1),
            registers: case.number(2),
            slots: case.number(3),
            turns: case.number(4),
            saves: case.saves(),
        };
        let space = opened(self.rt, self.alloc, size, case.folder(), &self.failing);
        self.failing.clear();
        match space {
            Ok(space) => {
                self.opened = Some(Opened {
                    space,
                    nodes: size.nodes,
                    is_started: false,
                });
                self.gate = None;
                case.text("ok");
            }
            Err(fault) => case.show(&fault),
        }
    }

    // The gate. It is made with the rules so far if there isn't one.
    fn gate(&mut self) -> Result<Arc<Ruled<R>>, Refusal> {
        if let Some(gate) = &self.gate {
            return Ok(gate.clone()?);
        }
        let rt = self.rt.clone()?;
        let rules = mem::replace(&mut self.rules, Rules::new(self.alloc));
        let gate = Arc::new(self.alloc, Ruled::new(rt, self.alloc, rules)?)?;
        self.gate = Some(gate.clone()?);
        Ok(gate)
    }

    // Starts the workers, or a new one of a node.
    fn work(&mut self, case: &mut Case) {
        let gate = self.gate();
        let Some(opened) = &mut self.opened else {
            case.unknown();
            return;
        };
        match gate {
            Ok(gate) if case.verb() == "start" => case.done(opened.start(self.rt, gate)),
            Ok(gate) => {
                let node = case.number(1);
                if case.goes_on() {
                    case.done(opened.revive(self.rt, node, gate));
                }
            }
            Err(refusal) => case.refused(refusal),
        }
    }

    // A question to the gate: how many workers of a node it has ended since this was asked
    // last, and whether the last one is to be revived; or how many hold it.
    fn ask_gate(&mut self, case: &mut Case) {
        let Some(gate) = &self.gate else {
            case.unknown();
            return;
        };
        if case.verb() == "holders" {
            case.show(&Arc::strong_count(gate));
            return;
        }
        let ended = gate.take_ended(case.number(1));
        if case.verb() == "ended" {
            case.show(&ended);
        } else if ended > 0 {
            self.work(case);
        } else {
            case.text("-");
        }
    }

    // Closes the space: how many reports there are; or the stages at which workers were ended, and
    // then the nodes of all others.
    fn close(&mut self, case: &mut Case) {
        let Some(opened) = self.opened.take() else {
            case.unknown();
            return;
        };
        let reports = opened.space.close(self.rt);
        self.gate = None;
        if case.verb() == "ends" {
            put_ends(&reports, case);
        } else {
            case.show(&reports.len());
        }
    }

    // Drops the space, and waits until no worker holds the gate.
    fn leave(&mut self, case: &mut Case) {
        drop(self.opened.take());
        let Some(gate) = &self.gate else {
            case.unknown();
            return;
        };
        for _ in self.rt.forever() {
            if Arc::strong_count(gate) == 1 {
                break;
            }
            pause(self.rt);
        }
        case.text("ok");
    }
}

// The node and the stage of each worker that was ended, and then the node of each other one.
fn put_ends(reports: &[Report], case: &mut Case) {
    for report in reports {
        if let Some(stage) = report.ended_at {
            case.debug(&(report.node, stage));
        }
    }
    for report in reports {
        if report.ended_at.is_none() {
            case.show(&report.node);
        }
    }
}

// A command to an open space.
fn on_space<R, D>(rt: &R, opened: &mut Opened<D>, case: &mut Case)
where
    R: Clock + Wait,
    D: Disk + Send + Drop + 'static,
{
    match case.verb() {
        "look" => match opened.space.watch() {
            Some(mut watch) => case.show(&opened.space.look(&mut watch).number),
            None => case.text("no watch is left"),
        },
        "over" => case.debug(&opened.space.ended().is_some()),
        "wait" => {
            await_end(rt, &opened.space);
            case.text("ok");
        }
        "sleep" => thread::sleep(rt, Duration::from_micros(case.number(1))),
        _ => on_node(rt, opened, case),
    }
}

// A command to the node whose number comes first, or after the verb.
fn on_node<R, D>(rt: &R, opened: &Opened<D>, case: &mut Case)
where
    R: Clock + Wait,
    D: Disk + Send + Drop + 'static,
{
    let node = case.node();
    let Some(cell) = opened.space.program(node) else {
        case.unknown();
        return;
    };
    match case.verb() {
        "turn" => {
            turn_often(rt, cell, node, opened.nodes, case.number(2));
            case.text("ok");
        }
        "trace" => put_trace(rt, cell, case),
        "send" => {
            let to = case.number(2);
            case.answer(cell.pump_out(rt, to));
        }
        "receive" => {
            let from = case.number(2);
            case.answer(cell.pump_in(rt, from));
        }
        _ => on_cell(rt, cell, case),
    }
}

// A command to a cell.
fn on_cell<R: Clock + Wait, D: Disk>(rt: &R, cell: &Shared<D>, case: &mut Case) {
    match case.verb() {
        "save" => case.done(cell.save(rt)),
        "reopen" => match cell.reopen(rt) {
            Ok(_) => case.text("ok"),
            Err(shut) => case.refused(shut.refusal()),
        },
        "raise" => match cell.raise(rt) {
            Ok(_) => case.text("ok"),
            Err(refusal) => case.refused(refusal),
        },
        "unsaved" => case.debug(&cell.unsaved(rt)),
        _ => on_station(rt, cell, case),
    }
}

// The lines of the trace.
fn put_trace<R: Wait, D: Disk>(rt: &R, cell: &Shared<D>, case: &mut Case) {
    match cell.trace_lines(rt) {
        Ok(lines) => {
            for line in &lines {
                case.text(line.as_str());
            }
        }
        Err(refusal) => case.refused(refusal),
    }
}

// Waits until no worker is left.
fn await_end<R: Clock + Wait, D: Disk + Drop>(rt: &R, space: &Space<D>) {
    for _ in rt.forever() {
        if space.ended().is_some() {
            return;
        }
        pause(rt);
    }
}

// Takes this many turns of a node's worker on this thread.
fn turn_often<R: Wait, D: Disk>(rt: &R, cell: &Shared<D>, node: u8, nodes: u8, turns: u32) {
    let mut pace = Pace::new(Reclaims::Never);
    for turn in 0..turns {
        drop(turn_node(rt, cell, &Open, node, nodes, turn, &mut pace));
    }
}
