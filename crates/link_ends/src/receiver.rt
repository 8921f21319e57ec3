//! The receiving end of a link: how much was received, and how much of that is saved. Two numbers
//! suffice, since messages are received strictly in order.
ghost use Rattle.std.specs.Prelude.{◌≡◌, ◌+◌, ◌<◌, ◌≤◌, ◌↔◌, IsSome, IfSome};
ghost use Rattle.ids.specs.declared.limits.TheConstants.{GREATEST_NUMBER};
ghost use Rattle.link_ends.specs.Receivers.{IsReceived, new_received, received, offered, taken_next, all_saved, saved_to};

use ids::{GREATEST_NUMBER, Refusal, WINDOW};
use std::marker::Model;

/// What an offered message is to its receiver.
#[derive(Clone, Copy, Debug, PartialEq, Eq)]
pub enum Offer {
    /// The next one of the link.
    Next,
    /// A message that was received before.
    Repeat,
    /// A message ahead of the next one, by less than the window.
    Early,
}

/// How many messages of another node a node has received, and how many of them a saved state holds.
#[derive(Clone, Copy)]
pub struct Receiver {
    taken: u64,
    saved: u64,
}

impl Model for Receiver {
    ghost use Rattle.link_ends.specs.Receivers.{Received, IsReceived};

    ghost Value = { Received };

    ghost view = { λ r. record { taken = r.taken; saved = r.saved } };

    ghost inverse = { λ r. record { taken = r.taken; saved = r.saved } };

    ghost invariant = { λ r. IsReceived (record { taken = r.taken; saved = r.saved }) };
}

impl Receiver {
    /// Makes a receiver that has received nothing.
    pub fn new() -> Receiver
        ensures { result ≡ new_received }
    {
        Receiver { taken: 0, saved: 0 }
    }

    /// Makes a receiver that has received the messages up to this number, all of which may be
    /// acknowledged. `None` if the number is above [`GREATEST_NUMBER`].
    pub fn from_parts(taken: u64) -> Option<Receiver>
        ensures numbered { IsSome result ↔ (taken ≤ GREATEST_NUMBER) }
        ensures made { IfSome result (λ r. r ≡ received taken) }
    {
        if taken > GREATEST_NUMBER {
            return None;
        }
        Some(Receiver {
            taken,
            saved: taken,
        })
    }

    /// Classifies the message with this number. It is the next one, a repeat, which was received
    /// before, or an early one, which is one of the next [`WINDOW`] other than the first. It fails
    /// with [`Refusal::OutOfOrder`] if the message is a later one. It allocates nothing and changes
    /// nothing.
    pub fn offer(&self, number: u64) -> Result<Offer, Refusal>
        ensures { result ≡ offered self.now.taken number }
    {
        if number <= self.taken {
            Ok(Offer::Repeat)
        } else if number - self.taken == 1 {
            Ok(Offer::Next)
        } else if number - self.taken <= u64::from(WINDOW) {
            Ok(Offer::Early)
        } else {
            Err(Refusal::OutOfOrder)
        }
    }

    /// Counts the next message as received. To be called after [`Receiver::offer`] has returned
    /// [`Offer::Next`] for a number that a frame can have, which is at most
    /// [`GREATEST_NUMBER`](ids::GREATEST_NUMBER).
    pub fn take_next(&mut self)
        requires { self.old.taken < GREATEST_NUMBER }
        ensures { self.new ≡ taken_next self.old }
    {
        self.taken += 1;
    }

    /// The number of the last message received; 0 if there was none.
    pub fn taken(&self) -> u64
        ensures { result ≡ self.now.taken }
    {
        self.taken
    }

    /// The number up to which a saved state has received the messages; they may be acknowledged up
    /// to it.
    pub fn ack_number(&self) -> u64
        ensures value { result ≡ self.now.saved }
        ensures within { result ≤ GREATEST_NUMBER }
    {
        self.saved
    }

    /// Marks everything received as held by a saved state. To be called after a save.
    pub fn mark_saved(&mut self)
        ensures { self.new ≡ all_saved self.old }
    {
        self.saved = self.taken;
    }

    /// Marks what was received up to this number as held by a saved state. A number above the last
    /// one received counts as that one; one below what is saved already changes nothing.
    pub fn mark_saved_to(&mut self, number: u64)
        ensures { self.new ≡ saved_to number self.old }
    {
        self.saved = self.saved.max(number.min(self.taken));
    }
}
