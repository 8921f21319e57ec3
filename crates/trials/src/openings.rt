//! Opens spaces on disks in memory. A case can make a disk fail and crash, and replace it with an
//! older copy. No worker is started: each command that gives a node something opens the space,
//! saves the node and drops the space.
ghost use Rattle.std.specs.Prelude.{◌≡◌, true};
ghost use Rattle.model.specs.Steps.{is_own};

use crate::case::{Case, Subject, event_in};
use crate::crashes::put_crashes;
use crate::lent::Lent;
use crate::reading::put_read;
use crate::sizes::{PAIR, Size, blank_disks, config_of};
use disk::{Disk, MemoryDisk};
use ids::{Refusal, Saves};
use model::{Answer, Event};
use std::alloc::Global;
use std::sync::Wait;
use supervisor::{OpenFault, Space};
use wire::Inbound;

/// The disks of a space, what a save writes to them, and the copies that the case has kept.
#[derive(Drop)]
pub(crate) struct Openings<'a, R> {
    rt: &'a R,
    alloc: Global,
    disks: Vec<MemoryDisk>,
    saves: Saves,
    copies: Vec<MemoryDisk>,
}

impl<'a, R> Openings<'a, R> {
    /// No disks yet.
    pub(crate) fn new(rt: &'a R, alloc: Global) -> Openings<'a, R> {
        Openings {
            rt,
            alloc,
            disks: Vec::new(alloc),
            saves: Saves::Images,
            copies: Vec::new(alloc),
        }
    }
}

impl<R: Wait> Subject for Openings<'_, R> {
    fn take(&mut self, case: &mut Case) {
        match case.verb() {
            "fresh" => self.renew(case),
            "saves" => {
                self.saves = case.saves();
                case.text("ok");
            }
            "fail" | "fail-once" | "crash" | "crashes" | "journal" => {
                change(self.alloc, &mut self.disks, case);
            }
            "keep" => self.keep(case),
            "restore" => self.restore(case),
            _ => match opened(self.alloc, &mut self.disks, self.saves) {
                Ok(space) => within(self.rt, &space, case),
                Err(fault) => case.show(&fault),
            },
        }
    }
}

impl<R> Openings<'_, R> {
    // `fresh NODES`: blank disks.
    fn renew(&mut self, case: &mut Case) {
        match blank_disks(self.alloc, case.number(1)) {
            Ok(disks) => {
                self.disks = disks;
                self.saves = case.saves();
                case.text("ok");
            }
            Err(_) => case.lacks_memory(),
        }
    }

    // `keep NODE`: copies the disk of a node; the number of the copy.
    fn keep(&mut self, case: &mut Case) {
        let Some(disk) = self.disks.get(case.number::<usize>(1)) else {
            case.unknown();
            return;
        };
        match disk.after_crash(0) {
            Ok(copy) => {
                case.show(&self.copies.len());
                case.needs(self.copies.push(copy).is_ok());
            }
            Err(_) => case.lacks_memory(),
        }
    }

    // `restore NODE COPY`: replaces the disk of a node with a copy that was kept.
    fn restore(&mut self, case: &mut Case) {
        let (node, copy): (usize, usize) = (case.number(1), case.number(2));
        match (self.disks.get_mut(node), self.copies.get(copy)) {
            (Some(disk), Some(copy)) => replace(disk, copy.after_crash(0), case),
            _ => case.unknown(),
        }
    }
}

// Makes a disk fail or crash, or looks at what crashes may leave.
fn change(alloc: Global, disks: &mut [MemoryDisk], case: &mut Case) {
    let Some(disk) = disks.get_mut(case.number::<usize>(1)) else {
        case.unknown();
        return;
    };
    match case.verb() {
        "crashes" => put_crashes(alloc, disk, case),
        "journal" => put_read(alloc, disk, case),
        "crash" => {
            let left = disk.after_crash(case.number(2));
            replace(disk, left, case);
        }
        _ => fail(disk, case),
    }
}

// Makes calls of the disk fail.
fn fail(disk: &mut MemoryDisk, case: &mut Case) {
    if case.verb() == "fail-once" {
        disk.fail_once(case.number(2));
    } else {
        disk.fail_from(case.number(2));
    }
    case.text("ok");
}

// Replaces a disk with a copy, or with what a crash left.
fn replace(disk: &mut MemoryDisk, by: Result<MemoryDisk, Refusal>, case: &mut Case) {
    match by {
        Ok(left) => {
            *disk = left;
            case.text("ok");
        }
        Err(_) => case.lacks_memory(),
    }
}

// A space on these disks, which it borrows.
fn opened<'a>(
    alloc: Global,
    held: &'a mut [MemoryDisk],
    saves: Saves,
) -> Result<Space<Lent<'a, MemoryDisk>>, OpenFault> {
    let size = Size {
        nodes: u8::try_from(held.len()).unwrap_or(u8::MAX),
        saves,
        ..PAIR
    };
    let config = config_of(alloc, size)?;
    let mut lent = Vec::new(alloc);
    let disks = held.iter_mut();
    for disk in disks {
        if lent.push(Lent { disk }).is_err() {
            return Err(OpenFault::Memory);
        }
    }
    Space::open(alloc, &config, lent)
}

// `open`, `carry FROM TO COUNT`, or an event for a node.
fn within<R: Wait, D: Disk + Drop>(rt: &R, space: &Space<D>, case: &mut Case) {
    match case.verb() {
        "open" => case.text("ok"),
        "carry" => {
            let (from, to, count) = (case.number(1), case.number(2), case.number(3));
            case.answer(carry_on(rt, space, from, to, count));
        }
        _ => match event_in(case.line()) {
            Some(event) => {
                let node = case.node();
                case.answer(act_on(rt, space, node, &event));
            }
            None => case.unknown(),
        },
    }
}

// A node's answer to an event, once the node is saved.
fn act_on<R: Wait, D: Disk + Drop>(
    rt: &R,
    space: &Space<D>,
    node: u8,
    event: &Event,
) -> Result<Answer, Refusal>
    requires { is_own event.now ≡ true }
{
    let Some(program) = space.program(node) else {
        return Err(Refusal::NoNode);
    };
    let answer = program.act(rt, event)?;
    program.save(rt)?;
    Ok(answer)
}

// The last frame that a node receives of some that another one sends, once the receiver is saved.
fn carry_on<R: Wait, D: Disk + Drop>(
    rt: &R,
    space: &Space<D>,
    from: u8,
    to: u8,
    count: u8,
) -> Result<Inbound, Refusal> {
    let Some(sender) = space.program(from) else {
        return Err(Refusal::NoNode);
    };
    let Some(receiver) = space.program(to) else {
        return Err(Refusal::NoNode);
    };
    let mut last = Inbound::Empty;
    for _ in 0..count {
        sender.pump_out(rt, to)?;
        last = receiver.pump_in(rt, from)?;
    }
    receiver.save(rt)?;
    Ok(last)
}
