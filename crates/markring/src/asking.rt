//! What `run` asks of nodes for their programs. That there was no letter is the outcome of a line
//! only if a node was asked after all workers had ended.
ghost use Rattle.std.specs.Prelude.{◌≡◌, true};
ghost use Rattle.model.specs.Steps.{is_own};

use disk::Disk;
use ids::Refusal;
use model::{Answer, Event};
use std::sync::Wait;
use supervisor::{AllEnded, Space};

/// Why a node accepted no letter after all workers had ended. Only [`accept_last`] makes one.
#[derive(Clone, Copy, Debug)]
pub(crate) struct LastRefusal {
    refusal: Refusal,
}

impl LastRefusal {
    /// The node's refusal.
    pub(crate) fn refusal(&self) -> Refusal
        ensures { result ≡ self.now.refusal }
    {
        self.refusal
    }
}

/// Gives a node an event of its program.
pub(crate) fn act<R: Wait, D: Disk + Drop>(
    rt: &R,
    space: &Space<D>,
    node: u8,
    event: &Event,
) -> Result<Answer, Refusal>
    requires { is_own event.now ≡ true }
{
    match space.program(node) {
        Some(program) => program.act(rt, event),
        None => Err(Refusal::NoNode),
    }
}

/// Lets a node accept a letter, after all workers have ended.
pub(crate) fn accept_last<R: Wait, D: Disk + Drop>(
    rt: &R,
    space: &Space<D>,
    node: u8,
    register: u16,
    _ended: AllEnded,
) -> Result<Answer, LastRefusal> {
    match act(rt, space, node, &Event::Accept { register }) {
        Ok(answer) => Ok(answer),
        Err(refusal) => Err(LastRefusal { refusal }),
    }
}
