//! Commands that keep nothing from one line to the next: runs of a worker, a collection in one
//! thread, and laws.
use crate::case::{Case, Subject};
use crate::growing::grow;
use crate::turns::run;
use ids::{Refusal, Shape};
use model::Event;
use std::alloc::Global;
use std::sync::Wait;
use world::Sim;

/// A case of such commands.
#[derive(Drop)]
pub(crate) struct Single<'a, R> {
    pub rt: &'a R,
    pub alloc: Global,
}

impl<R: Wait> Subject for Single<'_, R> {
    fn take(&mut self, case: &mut Case) {
        match case.verb() {
            "run" | "stopped" => run(self.rt, case),
            "grow" => grow(self.rt, case),
            "laws" => {
                call_laws();
                case.text("ok");
            }
            "collect" => case.answer(collect(self.alloc)),
            _ => case.unknown(),
        }
    }
}

// Calls each law once. A law does nothing when it is called.
fn call_laws() {
    frames::grammar();
    image_parts::spellings();
    image::nodes_spelled();
    image::nodes_saved();
    world::laws();
    cell::laws();
}

// How many objects node 0 of two has, and which cycle it has swept.
fn seen_in(sim: &Sim) -> (u32, u64) {
    match sim.state(0) {
        Some(state) => (state.live, state.swept),
        None => (0, 0),
    }
}

// What node 0 has after the end of a cycle that began when it had two objects, after one of them
// was dropped, and after a collection.
fn collect(alloc: Global) -> Result<[(u32, u64); 3], Refusal> {
    let Some(shape) = Shape::new(2, 2, 2) else {
        return Err(Refusal::NoNode);
    };
    let mut sim = Sim::new(alloc, shape)?;
    for register in 0..2 {
        let object = Event::Alloc {
            register,
            places: 0,
        };
        sim.act(0, &object)?;
    }
    sim.act(0, &Event::Begin)?;
    sim.finish_cycle()?;
    let first = seen_in(&sim);
    sim.act(0, &Event::Drop { register: 1 })?;
    let then = seen_in(&sim);
    sim.collect()?;
    let last = seen_in(&sim);
    drop(sim);
    Ok([first, then, last])
}
