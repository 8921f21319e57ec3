//! The events of a node and its answers. The program uses these enums, and so do the definitions.
ghost use Rattle.std.specs.Prelude.{◌≡◌};
ghost use Rattle.model.specs.Effects.{is_change};

use crate::age::Scope;
use ids::Ref;
use msg::{Ack, Data, Frozen, Token};

/// A received letter that waits until the program accepts it, or the next reference of one: its
/// sender, its label, the reference, if there is one, how many more of the letter's references
/// follow, and the letter's bytes. Only the first of a letter has bytes.
#[derive(Drop)]
pub struct Letter {
    pub from: u8,
    pub more: u8,
    pub label: u32,
    pub reference: Option<Ref>,
    pub bytes: Frozen<u8>,
}

/// What a program is told of the letter that it accepts: the letter's sender and label, its first
/// reference, if there is one, into how many registers its references went, and how many bytes it
/// had.
#[derive(Clone, Copy, Debug)]
pub struct Accepted {
    pub from: u8,
    pub count: u16,
    pub label: u32,
    pub reference: Option<Ref>,
    pub length: usize,
}

/// An event of one node. A program names objects only by its registers: `object` is the register
/// that names the object. An event borrows the bytes that it writes.
#[derive(Drop)]
pub enum Event<'a> {
    /// Makes a new object with this many empty places, and puts its reference into the register.
    Alloc {
        register: u16,
        places: u8,
    },
    /// Copies the reference in the source register into the register.
    Copy {
        register: u16,
        source: u16,
    },
    /// Empties the register.
    Drop {
        register: u16,
    },
    /// Copies the content of a place of the object into the register. If the place is empty, the
    /// register becomes empty.
    Load {
        register: u16,
        object: u16,
        place: u8,
    },
    /// Stores the register's reference in a place of the object.
    Store {
        object: u16,
        place: u8,
        register: u16,
    },
    /// Empties a place of the object.
    Clear {
        object: u16,
        place: u8,
    },
    /// Reads the word of the object. It changes nothing.
    Word {
        object: u16,
    },
    /// Writes the word of the object.
    SetWord {
        object: u16,
        word: u64,
    },
    /// Replaces the bytes of the object.
    SetBytes {
        object: u16,
        bytes: &'a [u8],
    },
    /// Overwrites bytes of the object, from this offset on. It never makes them longer.
    Patch {
        object: u16,
        offset: u32,
        bytes: &'a [u8],
    },
    /// Sends a letter to another node, with the register's reference, or without one if the
    /// register is empty.
    Give {
        to: u8,
        label: u32,
        register: u16,
    },
    /// Sends a letter to another node, with the references of this many registers, from the first
    /// one on, and with these bytes. Only in wide spaces.
    Post {
        to: u8,
        label: u32,
        first: u16,
        count: u8,
        bytes: &'a [u8],
    },
    /// Removes the oldest letter and puts its references into the register and those that follow
    /// it. If the letter has none, the register becomes empty.
    Accept {
        register: u16,
    },
    /// Asks the owner of an object of another node to store the register's reference in a place of
    /// that object. An empty register empties the place.
    Put {
        object: u16,
        place: u8,
        register: u16,
    },
    /// Asks the owner of an object of another node for the content of a place of that object. The
    /// owner sends it back in a letter with this label.
    Get {
        object: u16,
        place: u8,
        label: u32,
    },
    /// Asks the owner of an object of another node for its word and this many of its bytes, from
    /// this offset on. The owner sends them back in a letter with this label: the word as 8 bytes,
    /// big-endian, and then the bytes. If the object doesn't have as many, the letter has the word
    /// alone, and no bytes if the object is gone. Only in wide spaces.
    Fetch {
        object: u16,
        label: u32,
        offset: u32,
        count: u32,
    },
    /// Puts this reference to an object of the node itself into the register, if the object is
    /// live and marked in the node's cycle. So it leads back from a weak reference, which the
    /// program keeps outside of the space, to the object, as long as that isn't to be freed.
    Resolve {
        register: u16,
        reference: Ref,
    },
    /// Frees each private object within the scope that neither a root of this node nor an object
    /// which other nodes may know leads to. It needs no other node.
    Reclaim {
        scope: Scope,
    },
    /// Begins the next cycle. Only node 0 may do this, once all nodes have swept the last cycle.
    Begin,
    /// Shades the references in the places of a grey object.
    Scan,
    /// Passes the token on. Node 0 decides instead whether marking has ended. If it may not have
    /// ended, node 0 sends the token around the ring again.
    Pass,
    /// Looks at the next slots, at most this many, and frees the objects that aren't marked.
    Sweep {
        count: u32,
    },
    /// Receives the message that waits to be the next one from this node. On a node that keeps no
    /// early messages, none waits.
    Next {
        from: u8,
    },
    /// A message from another node.
    Data(Data),
    /// Another node acknowledges messages that it has received and saved.
    Ack(Ack),
}

/// The answer of a node to an event that it didn't refuse.
#[derive(Clone, Copy, Debug)]
pub enum Answer {
    /// The reference of the new object.
    New(Ref),
    /// The event is done.
    Done,
    /// The content of the place.
    Value(Option<Ref>),
    /// The object's word.
    Word(u64),
    /// The number of the message that was appended.
    Sent(u64),
    /// The letter that was accepted.
    Letter(Accepted),
    /// How many private objects were freed.
    Reclaimed(u32),
    /// The cycle that begins.
    Begun(u64),
    /// The object whose places were scanned.
    Scanned(Ref),
    /// The token as it was passed on.
    Passed(Token),
    /// Marking may not have ended yet, and the token goes around again.
    ProbeAgain,
    /// Marking has ended in this cycle.
    Ended(u64),
    /// How many objects were freed, and whether the node has now swept all its slots.
    Freed { count: u32, done: bool },
    /// The message was received.
    Received,
    /// The message had been received before. It changes nothing.
    Repeat,
    /// The message came before its turn. It changes nothing. A node that keeps early messages
    /// receives it when its turn comes.
    Early,
}

impl Answer {
    /// Whether an event with this answer changes the node's state. The reading of a word doesn't,
    /// nor does a repeat or an early message. Nor does an acknowledgement, whose answer is `Done`.
    #[inline(always)]
    pub fn is_change(&self) -> bool
        ensures { result ≡ is_change self.now }
    {
        !matches!(self, Answer::Word(_) | Answer::Repeat | Answer::Early)
    }
}
