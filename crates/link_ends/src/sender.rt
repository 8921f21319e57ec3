//! The sending end of a link: the messages that aren't acknowledged yet. Those that a saved state
//! holds are released, and no restart takes them back.
ghost use Rattle.std.specs.Prelude.{◌≡◌, ◌≢◌, ◌<◌, ◌≤◌, ◌+◌, ◌↔◌, length, option_copied, IsSome, IfSome, IfOk, IfErr, OnOk, OnErr};
ghost use Rattle.ids.specs.declared.limits.TheConstants.{GREATEST_NUMBER};
ghost use Rattle.ids.specs.declared.refusal.Refusal.TheVariants.{AckBeyond, LinkSpent, Memory};
ghost use Rattle.model.specs.View.{used, appended, retracted, trimmed, all_kept, kept_to, message_of, released_at, no_link};
ghost use Rattle.link_ends.specs.Senders.{IsLink, sent};

use ids::{GREATEST_NUMBER, Refusal, WINDOW};
use msg::Message;
use std::alloc::Global;
use std::collections::VecDeque;
use std::marker::Model;

/// A node's end for its messages to another one: how many were acknowledged, the messages after
/// those, first one first, and how many of all messages a saved state holds.
#[derive(Drop)]
pub struct Sender {
    base: u64,
    unacknowledged: VecDeque<Message>,
    kept: u64,
}

impl Model for Sender {
    ghost use Rattle.model.specs.View.{Link};

    ghost Value = { Link };

    ghost use Rattle.link_ends.specs.Senders.{IsLink};

    ghost view = { λ s.
        record { base = s.base; unacknowledged = s.unacknowledged.items; kept = s.kept } };

    ghost invariant = { λ s.
        IsLink (record { base = s.base; unacknowledged = s.unacknowledged.items; kept = s.kept }) };
}

impl Sender {
    /// Makes a sender that has sent nothing.
    pub fn new(alloc: Global) -> Sender
        ensures { result ≡ no_link }
    {
        Sender {
            base: 0,
            unacknowledged: VecDeque::new(alloc),
            kept: 0,
        }
    }

    /// Makes a sender whose messages up to the number `base` were acknowledged, with the messages
    /// after it, the first one first. All of them count as released. `None` if the number of the
    /// last one is above [`GREATEST_NUMBER`]; the messages are then dropped.
    pub fn from_parts(base: u64, messages: VecDeque<Message>) -> Option<Sender>
        ensures numbered { IsSome result ↔ (base + length messages.items ≤ GREATEST_NUMBER) }
        ensures made { IfSome result (λ s. s ≡ sent base messages.items) }
    {
        let count = messages.len() as u64;
        if base > GREATEST_NUMBER || count > GREATEST_NUMBER - base {
            return None;
        }
        Some(Sender {
            base,
            unacknowledged: messages,
            kept: base + count,
        })
    }

    /// The number of messages ever appended, which is the number of the last one.
    pub fn used(&self) -> u64
        ensures value { result ≡ used self.now }
        ensures within { result ≤ GREATEST_NUMBER }
    {
        self.base + self.unacknowledged.len() as u64
    }

    /// The highest number that was acknowledged; 0 if none was.
    pub fn base(&self) -> u64
        ensures { result ≡ self.now.base }
    {
        self.base
    }

    /// The number of messages that were released, which are those that a saved state holds. It is
    /// the number of the last one.
    pub fn released(&self) -> u64
        ensures { result ≡ self.now.kept }
    {
        self.kept
    }

    /// Appends a message, and returns its number. It fails with [`Refusal::LinkSpent`] if no number
    /// is left, and otherwise with [`Refusal::Memory`] if an allocation fails. The sender is then
    /// as it was.
    #[inline(always)]
    pub fn append(&mut self, message: Message) -> Result<u64, Refusal>
        ensures room { OnOk result (used self.old < GREATEST_NUMBER) }
        ensures done { OnOk result (self.new ≡ appended self.old message) }
        ensures number { IfOk result (λ n. n ≡ used self.old + 1) }
        ensures refused { IfErr result
            (λ e. e ≢ Memory → (e ≡ LinkSpent) × (GREATEST_NUMBER ≤ used self.old)) }
        ensures memory { IfErr result (λ e. e ≡ Memory → used self.old < GREATEST_NUMBER) }
        ensures unchanged { OnErr result (self.new ≡ self.old) }
        ensures sound { IsLink self.new }
    {
        let number = self.used();
        if number >= GREATEST_NUMBER {
            return Err(Refusal::LinkSpent);
        }
        self.unacknowledged.reserve(1)?;
        self.unacknowledged.push_back_reserved(message);
        Ok(number + 1)
    }

    /// Retracts the message that was appended last, if no saved state holds it. It allocates
    /// nothing.
    pub fn retract(&mut self)
        ensures done { self.new ≡ retracted self.old }
        ensures sound { IsLink self.new }
    {
        if self.kept < self.used() {
            self.unacknowledged.pop_back();
        }
    }

    /// Drops the messages up to this number, which was acknowledged. A smaller number than before
    /// changes nothing. It fails with [`Refusal::AckBeyond`] if the number is above the last one
    /// released; the sender is then as it was. It allocates nothing, and takes time linear in the
    /// number of messages dropped.
    pub fn trim(&mut self, number: u64) -> Result<(), Refusal>
        ensures released { OnOk result (number ≤ self.old.kept) }
        ensures done { OnOk result (self.new ≡ trimmed self.old number) }
        ensures refused { IfErr result (λ e. (e ≡ AckBeyond) × (self.old.kept < number)) }
        ensures unchanged { OnErr result (self.new ≡ self.old) }
        ensures sound { IsLink self.new }
    {
        if number > self.kept {
            return Err(Refusal::AckBeyond);
        }
        // (One by one, since mostly there is one: a `drain` takes longer to begin.)
        while self.base < number {
            self.unacknowledged.pop_front();
            self.base += 1;
        }
        Ok(())
    }

    /// Marks every message as held by a saved state, which releases them. To be called after a
    /// save.
    pub fn mark_saved(&mut self)
        ensures { self.new ≡ all_kept self.old }
    {
        self.kept = self.used();
    }

    /// Marks the messages up to this number as held by a saved state, which releases them. A number
    /// above the last one counts as that one; one below what is released already changes nothing.
    pub fn mark_saved_to(&mut self, number: u64)
        ensures { self.new ≡ kept_to number self.old }
    {
        self.kept = self.kept.max(number.min(self.used()));
    }

    /// The message with this number, released or not. `None` if none was appended under that
    /// number, or if it was dropped.
    pub fn message(&self, number: u64) -> Option<&Message>
        ensures value { option_copied result ≡ message_of self.now number }
        ensures within { IfSome result (λ _. number ≤ GREATEST_NUMBER) }
    {
        if number <= self.base {
            return None;
        }
        let place = number - self.base - 1;
        self.unacknowledged.get(place as usize)
    }

    /// The message in this place of the window. The window has [`WINDOW`] places and shows only
    /// released messages: in the first place is the one after the last acknowledged one.
    pub fn window(&self, place: u8) -> Option<&Message>
        ensures value { option_copied result ≡ released_at self.now place }
        ensures within { IfSome result (λ _. self.now.base + 1 + place ≤ GREATEST_NUMBER) }
    {
        if place < WINDOW && self.base + u64::from(place) < self.kept {
            self.unacknowledged.get(usize::from(place))
        } else {
            None
        }
    }
}
