//! What nodes say to each other: the messages of programs, and the collector's own. The numbers in
//! them are not limited here; frames and nodes keep them within the limits.
ghost use Rattle.std.specs.Prelude.{◌≡◌, false, IfOk, IsOk};
ghost use Rattle.msg.specs.Limits.{is_post};

use crate::frozen::Frozen;
use ids::Ref;
use std::alloc::AllocError;

/// The colour of a node or of the token, as in EWD998. Only a white token that met only white nodes
/// may show that marking has ended.
#[derive(Clone, Copy, Debug, PartialEq, Eq)]
pub enum Colour {
    White,
    Black,
}

/// The token that goes round the ring: its colour, and the sum of the balances that it has
/// collected.
#[derive(Clone, Copy, Debug, PartialEq, Eq)]
pub struct Token {
    pub colour: Colour,
    pub q: i64,
}

/// What a message says.
pub enum Body {
    /// A collection cycle begins.
    Begin,
    /// The token passes to the receiver.
    Token(Token),
    /// Asks the receiver to mark this object of its own.
    Mark {
        target: Ref,
    },
    /// A letter to the receiver's program: a label, and a reference if one is sent.
    Give {
        label: u32,
        reference: Option<Ref>,
    },
    /// Asks the receiver to write the reference, or nothing, into a place of its object.
    Put {
        target: Ref,
        place: u8,
        reference: Option<Ref>,
    },
    /// Asks the receiver to send back, as a letter with this label, what a place of its object
    /// holds.
    Get {
        target: Ref,
        place: u8,
        label: u32,
    },
    /// A letter to the receiver's program: a label, references or empty registers, and bytes. Only
    /// wide spaces have it.
    Post {
        label: u32,
        references: Frozen<Option<Ref>>,
        bytes: Frozen<u8>,
    },
    /// Asks the receiver to send back, as a letter with this label, the word of its object and this
    /// many of its bytes, from this offset on. Only wide spaces have it.
    Fetch {
        target: Ref,
        label: u32,
        offset: u32,
        count: u32,
    },
    /// Marking has ended.
    Ended,
    /// The sender has swept.
    Swept,
}

// Written out, since most bodies own no memory: only a test for that is inlined.
impl Drop for Body {
    #[inline(always)]
    fn drop(self) {
        match self {
            Body::Post {
                label: _,
                references,
                bytes,
            } => release(references, bytes),
            Body::Begin => {}
            Body::Token(_) => {}
            Body::Mark { target: _ } => {}
            Body::Give {
                label: _,
                reference: _,
            } => {}
            Body::Put {
                target: _,
                place: _,
                reference: _,
            } => {}
            Body::Get {
                target: _,
                place: _,
                label: _,
            } => {}
            Body::Fetch {
                target: _,
                label: _,
                offset: _,
                count: _,
            } => {}
            Body::Ended => {}
            Body::Swept => {}
        }
    }
}

#[cold]
#[inline(never)]
fn release(_references: Frozen<Option<Ref>>, _bytes: Frozen<u8>) {}

/// A message as its sender keeps it: the sender's cycle when it was appended, and what it says. Its
/// number is its position among all messages of its link, counted from 1.
#[derive(Drop)]
pub struct Message {
    pub stamp: u64,
    pub body: Body,
}

impl Body {
    /// The same body once more, which shares its references and bytes. Of those that have none, a
    /// copy never fails; for others see [`Frozen::share`].
    pub fn copy(&self) -> Result<Body, AllocError>
        ensures same { IfOk result (λ b. b ≡ self.now) }
        ensures spared { is_post self.now ≡ false → IsOk result }
    {
        Ok(match self {
            Body::Begin => Body::Begin,
            Body::Token(token) => Body::Token(*token),
            Body::Mark { target } => Body::Mark { target: *target },
            Body::Give { label, reference } => Body::Give {
                label: *label,
                reference: *reference,
            },
            Body::Put {
                target,
                place,
                reference,
            } => Body::Put {
                target: *target,
                place: *place,
                reference: *reference,
            },
            Body::Get {
                target,
                place,
                label,
            } => Body::Get {
                target: *target,
                place: *place,
                label: *label,
            },
            Body::Post { .. } => {
                // (A variable of its own, so that no other copy goes through memory.)
                let post = self.copy_post();
                return post;
            }
            Body::Fetch {
                target,
                label,
                offset,
                count,
            } => Body::Fetch {
                target: *target,
                label: *label,
                offset: *offset,
                count: *count,
            },
            Body::Ended => Body::Ended,
            Body::Swept => Body::Swept,
        })
    }

    // The same for a Post. (For other bodies it fails.)
    #[cold]
    #[inline(never)]
    fn copy_post(&self) -> Result<Body, AllocError>
        ensures { IfOk result (λ b. b ≡ self.now) }
    {
        match self {
            Body::Post {
                label,
                references,
                bytes,
            } => Ok(Body::Post {
                label: *label,
                references: references.share()?,
                bytes: bytes.share()?,
            }),
            _ => Err(AllocError),
        }
    }
}

impl Message {
    /// The same message once more; see [`Body::copy`].
    pub fn copy(&self) -> Result<Message, AllocError>
        ensures same { IfOk result (λ m. m ≡ self.now) }
        ensures spared { is_post self.now.body ≡ false → IsOk result }
    {
        Ok(Message {
            stamp: self.stamp,
            body: self.body.copy()?,
        })
    }
}
