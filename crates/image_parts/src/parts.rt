//! A node as the parts that its image says. The parts may contradict each other; whether they form
//! a node is checked when the node is made of them.
use cycles::Ring;
use heap::HeapParts;
use ids::Ref;
use msg::Message;
use std::marker::Model;

/// The sizes of the space, and the node's own number.
#[derive(Clone, Copy)]
pub struct Head {
    pub nodes: u8,
    pub own: u8,
    pub registers: u16,
    pub slots: u32,
}

/// How far the node's collection cycle is.
#[derive(Clone, Copy)]
pub struct PhasesParts {
    pub cycle: u64,
    pub ended: u64,
    pub swept: u64,
    /// The next slot to be swept.
    pub cursor: u32,
}

/// What the node holds of the links between it and another one: the highest acknowledged number of
/// its own messages, the messages after that one, and the number of the last message received from
/// the other node.
#[derive(Drop)]
pub struct StoredLink {
    pub base: u64,
    pub unacknowledged: Vec<Message>,
    pub received: u64,
}

impl Model for StoredLink {
    ghost use Rattle.image_parts.specs.Links.{StoredLink};

    ghost Value = { StoredLink };

    ghost view = { λ l. record {
      base = l.base;
      unacknowledged = l.unacknowledged.items;
      received = l.received;
    } };
}

/// All that an image says about a node.
#[derive(Drop)]
pub struct StoredNode {
    pub head: Head,
    pub phases: PhasesParts,
    pub ring: Ring,
    /// At node 0 the cycle that each other node reported as swept, in ascending order; at other
    /// nodes empty.
    pub reports: Vec<u64>,
    pub heap: HeapParts,
    /// The references of other nodes that were asked for in this cycle, in order.
    pub asked: Vec<Ref>,
    /// The links to the other nodes, in ascending order.
    pub links: Vec<StoredLink>,
}
