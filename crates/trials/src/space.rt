//! A space in a program of one's own: two nodes, a letter, a collection cycle and a restart.
//! docs/RATTLE.md shows this file, and a case runs it.
use disk::Disk;
use model::Event;
use std::alloc::Global;
use std::sync::{Arc, Wait};
use std::thread::Threads;
use supervisor::{Config, Space};
use workers::{Gate, Point, Report};

/// A gate that never holds a worker up.
#[derive(Drop)]
pub(crate) struct Open;

impl Gate for Open {
    fn at(&self, _point: Point) {}
}

/// Opens a space of this configuration on these disks, and closes it once its program is over.
pub(crate) fn meet<R, D>(rt: &R, alloc: Global, text: &str, disks: Vec<D>) -> Option<Vec<Report>>
where
    R: Threads + Wait + Clone + Send + Drop + 'static,
    D: Disk + Send + Drop + 'static,
{
    let config = Config::from_text(alloc, text).ok()?;
    let gate = Arc::new(alloc, Open).ok()?;
    let mut space = Space::open(alloc, &config, disks).ok()?;
    let worked = match space.start(rt, gate) {
        Ok(()) => work(rt, &mut space),
        Err(_) => None,
    };
    let reports = space.close(rt);
    worked?;
    Some(reports)
}

// What the program does while the workers take their turns.
fn work<R: Wait, D: Disk + Drop>(rt: &R, space: &mut Space<D>) -> Option<()> {
    let mut watch = space.watch()?;
    let program = space.program(0)?;
    let object = Event::Alloc {
        register: 0,
        places: 2,
    };
    program.act(rt, &object).ok()?;
    let letter = Event::Give {
        to: 1,
        label: 7,
        register: 0,
    };
    program.act(rt, &letter).ok()?;
    space.begin(rt).ok()?;
    let _ended = space.look(&mut watch);
    space.restart(rt, 1).ok()
}
