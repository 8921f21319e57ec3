//! What a worker's turn calls. Turns are proved for any such station, so the proofs don't depend on
//! how a cell is shared, or on cells at all.
ghost use Rattle.std.specs.Prelude.{◌≡◌, true};
ghost use Rattle.model.specs.Steps.{is_own};

use ids::Refusal;
use model::{Answer, Event};
use std::sync::Wait;
use wire::{Inbound, Outbound, Raised};

/// What a worker sees of its node.
#[derive(Clone, Copy, Debug, PartialEq, Eq)]
pub struct Look {
    /// How many objects the node has.
    pub live: u32,
    /// Whether there was an event since the last save or reopening.
    pub unsaved: bool,
}

/// A node with its disk, as several threads share it. Each call is at most one event of the node,
/// and may wait for the call of another thread.
pub trait Station {
    /// Receives a frame or a waiting message from another node, if there is one.
    fn pump_in<R: Wait>(&self, rt: &R, from: u8) -> Result<Inbound, Refusal>;

    /// Gives the node an event of its own.
    fn act<R: Wait>(&self, rt: &R, event: &Event) -> Result<Answer, Refusal>
        requires { is_own event.now ≡ true };

    /// Looks at the node.
    fn look<R: Wait>(&self, rt: &R) -> Look;

    /// Saves the node.
    fn save<R: Wait>(&self, rt: &R) -> Result<(), Refusal>;

    /// Sends a frame to another node, if there is room.
    fn pump_out<R: Wait>(&self, rt: &R, to: u8) -> Result<Outbound, Refusal>;

    /// Shows on the board the last cycle that the node, as saved, counts as ended.
    fn raise<R: Wait>(&self, rt: &R) -> Result<Raised, Refusal>;
}
