//! A space that is closed with its disks as they are at one moment, and a second one that continues
//! on them. The contract of `visit` says, for any number of such spaces one after another, that all
//! begin in worlds that a run reaches. docs/RATTLE.md shows parts of this file, and a case runs it.
ghost use Rattle.std.specs.Prelude.{◌≡◌, None, IfErr, IfOk, IfSome};
ghost use Rattle.trials.specs.Chains.{CanBegin};

use crate::gates::pause;
use crate::space::Open;
use cell::Naming;
use disk::Disk;
use ids::Refusal;
use model::{Answer, Event};
use std::alloc::Global;
use std::sync::{Arc, Wait};
use std::thread::Threads;
use std::time::Clock;
use supervisor::{Config, Opened, Program, Served, SpaceOn};

// Node 0 makes an object, and gives it to node 1 in a letter.
#[derive(Drop)]
struct Giving {
    given: Option<()>,
}

impl<R: Wait, D: Disk + Drop> Program<R, D> for Giving {
    fn run<W: Naming>(&mut self, rt: &R, space: &SpaceOn<D, W>) {
        self.given = give(rt, space);
    }
}

fn give<R: Wait, D: Disk + Drop, W: Naming>(rt: &R, space: &SpaceOn<D, W>) -> Option<()> {
    let program = space.program(0)?;
    let object = Event::Alloc {
        register: 0,
        places: 2,
    };
    program.act(rt, &object).ok()?;
    let letter = Event::Give {
        to: 1,
        label: 7,
        register: 0,
    };
    program.act(rt, &letter).ok()?;
    program.save(rt).ok()
}

// Node 1 accepts the letter; its label.
#[derive(Drop)]
struct Accepting {
    label: Option<u32>,
}

impl<R: Wait + Clock, D: Disk + Drop> Program<R, D> for Accepting {
    fn run<W: Naming>(&mut self, rt: &R, space: &SpaceOn<D, W>) {
        self.label = accept(rt, space);
    }
}

fn accept<R, D, W>(rt: &R, space: &SpaceOn<D, W>) -> Option<u32>
where
    R: Wait + Clock,
    D: Disk + Drop,
    W: Naming,
{
    let program = space.program(1)?;
    for _ in rt.forever() {
        match program.act(rt, &Event::Accept { register: 1 }) {
            Ok(Answer::Letter(letter)) => return Some(letter.label),
            Err(Refusal::NoLetter) => pause(rt),
            _ => return None,
        }
    }
    None
}

// The disks that a space gave out, if it did.
fn given_out<D: Disk + Drop>(served: Served<D>) -> Option<Vec<D>>
    ensures disks { IfOk served.closed (λ c. IfSome result (λ v. v ≡ c.disks)) }
    ensures none { IfErr served.closed (λ _. result ≡ None) }
{
    let Served { reports: _, closed } = served;
    match closed {
        Ok(closed) => Some(closed.disks),
        Err(_) => None,
    }
}

// Runs a program in a space on these disks. Returns the disks as the space leaves them, which are
// then of a space that a next one can continue, if these were.
fn visit<R, D, P>(
    rt: &R,
    alloc: Global,
    config: &Config,
    disks: Vec<D>,
    program: &mut P,
) -> Option<Vec<D>>
where
    R: Threads + Wait + Clock + Clone + Send + Drop + 'static,
    D: Disk + Send + Drop + 'static,
    P: Program<R, D>,
    ensures { CanBegin D.seen D.may_leave config.now.shape disks.items
        → IfSome result (λ v. CanBegin D.seen D.may_leave config.now.shape v.items) }
{
    let gate = Arc::new(alloc, Open).ok()?;
    let Ok(opened) = Opened::open(alloc, config, disks) else {
        return None;
    };
    let Ok(served) = opened.serve(rt, gate, program) else {
        return None;
    };
    given_out(served)
}

/// Two spaces of this configuration, one after another on these disks. The label of the letter that
/// was given in the first one and accepted in the second one, and the number of disks at the end.
pub(crate) fn once<R, D>(rt: &R, alloc: Global, text: &str, disks: Vec<D>) -> Option<(u32, usize)>
where
    R: Threads + Wait + Clock + Clone + Send + Drop + 'static,
    D: Disk + Send + Drop + 'static,
{
    let config = Config::from_text(alloc, text).ok()?;
    let mut giving = Giving { given: None };
    let mut accepting = Accepting { label: None };
    let disks = visit(rt, alloc, &config, disks, &mut giving)?;
    giving.given?;
    let disks = visit(rt, alloc, &config, disks, &mut accepting)?;
    Some((accepting.label?, disks.len()))
}
