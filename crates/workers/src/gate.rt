//! The gate, and the points of a turn at which a worker asks it. The worker holds no lock there, so
//! the gate may wait, look at the space, or end the worker.

/// How far a turn has got.
#[derive(Clone, Copy, Debug, PartialEq, Eq)]
pub enum Stage {
    /// Nothing has been done yet.
    Start,
    /// One frame from each other node was received, if there was one.
    TakenIn,
    /// The collector has done its part.
    Collected,
    /// The node was saved, if there was an event since the last save.
    Saved,
    /// One frame was sent to each other node, if there was room.
    Sent,
}

/// A point of a worker's run: its node, the turn, counted from 1, and the stage of that turn.
#[derive(Clone, Copy, Debug, PartialEq, Eq)]
pub struct Point {
    pub node: u8,
    pub turn: u32,
    pub stage: Stage,
}

/// What a worker asks at each point of its turns. The worker holds no lock there, so the gate may
/// pause it, look at the space, or end it.
pub trait Gate {
    /// The worker is at this point and continues once the call returns.
    fn at(&self, point: Point);

    /// Whether the worker continues from this point; asked after [`Gate::at`]. If not, the worker
    /// ends there: it makes no further call, and what it has done stays in effect.
    fn go_on(&self, _point: Point) -> bool {
        true
    }
}
