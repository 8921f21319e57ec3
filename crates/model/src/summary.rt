//! A node in numbers, for observers. They are those of the state that the node shows.
use ids::Shape;
use msg::Colour;

/// A node in numbers: its phases, its part of the ring, and how many grey objects, live objects and
/// letters it has.
#[derive(Clone, Copy)]
pub struct Summary {
    pub shape: Shape,
    pub own: u8,
    pub cycle: u64,
    pub ended: u64,
    pub swept: u64,
    pub colour: Colour,
    /// Messages sent less those received, of those that count in the current cycle. Printed as
    /// `old`.
    pub earlier: i64,
    /// The same for the messages that the next cycle counts: those with references, sent in the
    /// current cycle. Printed as `cur`.
    pub recent: i64,
    pub grey: usize,
    pub live: u32,
    pub has_token: bool,
    pub letters: usize,
}
