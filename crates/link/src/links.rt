//! Both ends of the links between a node and each node, found by number. A message for all others
//! is appended for all of them or for none.
ghost use Rattle.std.specs.Prelude.{◌≡◌, ◌≢◌, ◌+◌, ◌<◌, ◌≤◌, true, false, length, map, option_copied, slice_index_or, ◌↔◌, IsSome, IfSome, IfOk, IfErr, OnOk, OnErr};
ghost use Rattle.ids.specs.declared.limits.TheConstants.{GREATEST_NUMBER};
ghost use Rattle.ids.specs.declared.refusal.Refusal.TheVariants.{AckBeyond, LinkSpent, Memory};
ghost use Rattle.model.specs.Steps.{fits};
ghost use Rattle.model.specs.View.{used, append_to, message_of, released_at};
ghost use Rattle.link_ends.specs.Receivers.{offered};
ghost use Rattle.msg.specs.declared.body.Message.{Message};
ghost use Rattle.link.specs.Links.{LinksView, IsLinks, new_links, link_at, got_at, ack_at, fits_to, appended_to, for_other, fits_others, announced_below, announced, retracted_to, trimmed_to, taken_next_from, kept_links, kept_peer};
ghost use Rattle.link.specs.Ends.{new_ends, kept_ends, kept_ends_to};
ghost use Rattle.link.specs.Parts.{IsNumbered, ends_given};

use crate::parts::LinkParts;
use ids::{GREATEST_NUMBER, Refusal};
use link_ends::{Offer, Receiver, Sender};
use msg::Message;
use std::alloc::Global;
use std::marker::Model;

/// The ends that a node holds of the two links between it and another node: the sending end and the
/// receiving end.
#[derive(Drop)]
pub(crate) struct Ends {
    sender: Sender,
    receiver: Receiver,
}

impl Ends {
    /// Makes the ends of these parts. `None` if one of the numbers is too large.
    pub(crate) fn from_parts(parts: LinkParts) -> Option<Ends>
        ensures numbered { IsSome result ↔ IsNumbered parts }
        ensures made { IfSome result (λ e. e ≡ ends_given parts) }
    {
        let LinkParts {
            base,
            messages,
            taken,
        } = parts;
        Some(Ends {
            sender: Sender::from_parts(base, messages)?,
            receiver: Receiver::from_parts(taken)?,
        })
    }

    fn new(alloc: Global) -> Ends
        ensures { result ≡ new_ends }
    {
        Ends {
            sender: Sender::new(alloc),
            receiver: Receiver::new(),
        }
    }

    fn mark_saved(&mut self)
        ensures { self.new ≡ kept_ends self.old }
    {
        self.sender.mark_saved();
        self.receiver.mark_saved();
    }

    fn mark_saved_to(&mut self, sent: u64, received: u64)
        ensures { self.new ≡ kept_ends_to sent received self.old }
    {
        self.sender.mark_saved_to(sent);
        self.receiver.mark_saved_to(received);
    }
}

/// What a node holds of the links between it and each node of its space, including itself: a
/// [`Sender`] and a [`Receiver`] for each. A call names a node by its number, which has to be below
/// the width, and uses that node's ends only. Room once allocated for messages is kept for later
/// ones.
pub struct Links {
    pub(crate) by_node: Vec<Ends>,
}

// Written out, so that the crates above don't have to prove again how each field is dropped.
impl Drop for Links {
    fn drop(self) {
        let Links { by_node: _ } = self;
    }
}

impl Model for Links {
    ghost use Rattle.link.specs.Links.{LinksView, IsLinks};

    ghost Value = { LinksView };

    ghost use Rattle.link.specs.Ends.{view_of};

    ghost view = { λ l. view_of l.by_node.items };

    ghost invariant = { λ l. IsLinks (view_of l.by_node.items) };
}

impl Links {
    /// Makes the links of a node that has sent and received nothing, in a space of `width` nodes.
    /// It fails with [`Refusal::Memory`] if an allocation fails.
    pub fn new(alloc: Global, width: u8) -> Result<Links, Refusal>
        ensures made { IfOk result (λ l. l ≡ new_links width) }
        ensures refused { IfErr result (λ e. e ≡ Memory) }
    {
        let mut by_node = Vec::with_capacity(alloc, usize::from(width))?;
        for _node in 0..width {
            by_node.push(Ends::new(alloc))?;
        }
        Ok(Links { by_node })
    }

    /// The number of nodes of the space.
    pub fn width(&self) -> u8
        ensures value { result ≡ length self.now.links }
        ensures sound { IsLinks self.now }
    {
        self.by_node.len() as u8
    }

    /// Appends a message for the node `to`, and returns its number. It fails with
    /// [`Refusal::LinkSpent`] if that link has no number left, and otherwise with
    /// [`Refusal::Memory`] if an allocation fails. The links are then as they were. An allocation
    /// moves all messages that are kept for that node, and doubles the room for them.
    #[inline(always)]
    pub fn append(&mut self, to: u8, message: Message) -> Result<u64, Refusal>
        requires { to < length self.old.links }
        ensures fits { OnOk result (fits_to self.old to message ≡ true) }
        ensures done { OnOk result (self.new ≡ appended_to self.old to message) }
        ensures number { IfOk result (λ n. n ≡ slice_index_or (map used self.old.links) to 0 + 1) }
        ensures refused { IfErr result
            (λ e. e ≢ Memory → (e ≡ LinkSpent) × (fits_to self.old to message ≡ false)) }
        ensures memory { IfErr result (λ e. e ≡ Memory → fits_to self.old to message ≡ true) }
        ensures unchanged { OnErr result (self.new ≡ self.old) }
        ensures sound { IsLinks self.new }
    {
        self.by_node[usize::from(to)].sender.append(message)
    }

    /// Appends the same message for every node except `own`, in ascending order: for all of them or
    /// for none. It fails with [`Refusal::LinkSpent`] if one of their links has no number left, and
    /// otherwise with [`Refusal::Memory`] if an allocation fails. The links are then as they were.
    pub fn announce(&mut self, own: u8, message: &Message) -> Result<(), Refusal>
        ensures fits { OnOk result (fits_others self.old own message.now ≡ true) }
        ensures done { OnOk result (self.new ≡ announced self.old own message.now) }
        ensures refused { IfErr result
            (λ e. e ≢ Memory → (e ≡ LinkSpent) × (fits_others self.old own message.now ≡ false)) }
        ensures memory { IfErr result
            (λ e. e ≡ Memory → fits_others self.old own message.now ≡ true) }
        ensures unchanged { OnErr result (self.new ≡ self.old) }
        ensures sound { IsLinks self.new }
    {
        if !self.fits_others(own) {
            return Err(Refusal::LinkSpent);
        }
        for to in 0..self.width() {
            let Ok(()) = self.append_other(own, to, message) else {
                self.retract_others(own, to);
                return Err(Refusal::Memory);
            };
        }
        Ok(())
    }

    // Whether the link to every node except `own` has a number left.
    fn fits_others(&self, own: u8) -> bool
        ensures value { (x : Message) → result ≡ fits_others self.now own x }
        ensures sound { IsLinks self.now }
    {
        let mut fits = true;
        for to in 0..self.width() {
            fits = fits && self.fits_other(own, to);
        }
        fits
    }

    // Whether the link to a node has a number left, or the node is `own`.
    fn fits_other(&self, own: u8, to: u8) -> bool
        requires { to < length self.now.links }
        ensures { (x : Message) → result ≡ fits (map used self.now.links) (for_other own x to) }
    {
        to == own || self.used(to) < GREATEST_NUMBER
    }

    // Appends a message for a node, unless that is `own`.
    fn append_other(&mut self, own: u8, to: u8, message: &Message) -> Result<(), Refusal>
        requires { to < length self.old.links }
        ensures done { OnOk result (self.new ≡ record self.old {
          links = append_to self.old.links (for_other own message.now to);
        }) }
        ensures unchanged { OnErr result (self.new ≡ self.old) }
        ensures sound { IsLinks self.old → IsLinks self.new }
    {
        if to != own {
            self.append(to, message.copy()?)?;
        }
        Ok(())
    }

    // Retracts what was announced last to the nodes below a number.
    fn retract_others(&mut self, own: u8, below: u8)
        requires { below ≤ length self.old.links }
        ensures { (v : LinksView) (x : Message) → IsLinks v
            → self.old ≡ announced_below v own x below → self.new ≡ v }
    {
        let mut left = below;
        while left > 0 {
            left -= 1;
            if left != own {
                self.retract(left);
            }
        }
    }

    /// Retracts the message that was appended last for the node `to`, if no saved state holds it;
    /// otherwise nothing changes. After [`Links::append`] it restores the links as they were
    /// before. It allocates nothing.
    pub fn retract(&mut self, to: u8)
        requires { to < length self.old.links }
        ensures done { self.new ≡ retracted_to self.old to }
        ensures sound { IsLinks self.new }
    {
        self.by_node[usize::from(to)].sender.retract();
    }

    /// Drops the messages to the node `from` up to this number, which that node acknowledged. A
    /// smaller number than before changes nothing. It fails with [`Refusal::AckBeyond`] if the
    /// number is above the last one released; the links are then as they were. It allocates
    /// nothing, and takes time linear in the number of messages dropped.
    pub fn trim(&mut self, from: u8, number: u64) -> Result<(), Refusal>
        requires { from < length self.old.links }
        ensures released { OnOk result (number ≤ (link_at self.old from).kept) }
        ensures done { OnOk result (self.new ≡ trimmed_to self.old from number) }
        ensures refused { IfErr result
            (λ e. (e ≡ AckBeyond) × ((link_at self.old from).kept < number)) }
        ensures unchanged { OnErr result (self.new ≡ self.old) }
        ensures sound { IsLinks self.new }
    {
        self.by_node[usize::from(from)].sender.trim(number)
    }

    /// Classifies the message with this number from the node `from`. It is the next one, a repeat,
    /// which was received before, or an early one. It fails with [`Refusal::OutOfOrder`] if the
    /// message is ahead of the next one by the window or more.
    pub fn offer(&self, from: u8, number: u64) -> Result<Offer, Refusal>
        requires { from < length self.now.links }
        ensures { result ≡ offered (got_at self.now from) number }
    {
        self.by_node[usize::from(from)].receiver.offer(number)
    }

    /// Counts the next message from the node `from` as received. To be called after
    /// [`Links::offer`] has returned [`Offer::Next`] for a number that a frame can have, which is
    /// at most [`GREATEST_NUMBER`](ids::GREATEST_NUMBER).
    pub fn take_next(&mut self, from: u8)
        requires there { from < length self.old.links }
        requires room { got_at self.old from < GREATEST_NUMBER }
        ensures done { self.new ≡ taken_next_from self.old from }
        ensures sound { IsLinks self.new }
    {
        self.by_node[usize::from(from)].receiver.take_next();
    }

    /// The number of the last message received from the node `from`; 0 if there was none.
    pub fn taken(&self, from: u8) -> u64
        requires { from < length self.now.links }
        ensures { result ≡ got_at self.now from }
    {
        self.by_node[usize::from(from)].receiver.taken()
    }

    /// The number of messages ever appended for the node `to`, which is the number of the last one.
    pub fn used(&self, to: u8) -> u64
        requires { to < length self.now.links }
        ensures value { result ≡ used (link_at self.now to) }
        ensures within { result ≤ GREATEST_NUMBER }
        ensures sound { IsLinks self.now }
    {
        self.by_node[usize::from(to)].sender.used()
    }

    /// The highest number that the node `to` has acknowledged; 0 if it has acknowledged none.
    pub fn base(&self, to: u8) -> u64
        requires { to < length self.now.links }
        ensures { result ≡ (link_at self.now to).base }
    {
        self.by_node[usize::from(to)].sender.base()
    }

    /// The number of messages for the node `to` that were released, which is the number of the last
    /// one.
    pub fn released(&self, to: u8) -> u64
        requires { to < length self.now.links }
        ensures { result ≡ (link_at self.now to).kept }
    {
        self.by_node[usize::from(to)].sender.released()
    }

    /// The message with this number for the node `to`, released or not. `None` if none was appended
    /// under that number, or if it was dropped.
    pub fn message(&self, to: u8, number: u64) -> Option<&Message>
        requires { to < length self.now.links }
        ensures value { option_copied result ≡ message_of (link_at self.now to) number }
        ensures within { IfSome result (λ _. number ≤ GREATEST_NUMBER) }
    {
        self.by_node[usize::from(to)].sender.message(number)
    }

    /// The message in this place of the window to the node `to`. The window has
    /// [`WINDOW`](ids::WINDOW) places and shows only released messages: in the first place is the
    /// one after the last acknowledged one.
    pub fn window(&self, to: u8, place: u8) -> Option<&Message>
        requires { to < length self.now.links }
        ensures value { option_copied result ≡ released_at (link_at self.now to) place }
        ensures within { IfSome result
            (λ _. (link_at self.now to).base + 1 + place ≤ GREATEST_NUMBER) }
    {
        self.by_node[usize::from(to)].sender.window(place)
    }

    /// The number up to which a saved state has received the messages from the node `from`; they
    /// may be acknowledged up to it.
    pub fn ack_number(&self, from: u8) -> u64
        requires { from < length self.now.links }
        ensures value { result ≡ ack_at self.now from }
        ensures within { result ≤ GREATEST_NUMBER }
    {
        self.by_node[usize::from(from)].receiver.ack_number()
    }

    /// Marks every message, and everything received, as held by a saved state. To be called after a
    /// save: it releases the messages, and what was received may be acknowledged. It takes time
    /// linear in the number of nodes, whatever the number of messages.
    pub fn mark_saved(&mut self)
        ensures done { self.new ≡ kept_links self.old }
        ensures sound { IsLinks self.new }
    {
        for ends in self.by_node.iter_mut() {
            ends.mark_saved();
        }
    }

    /// Marks the messages to the node `peer` up to the number `sent`, and those received from it up
    /// to the number `received`, as held by a saved state. To be called after a save of an earlier
    /// state, with that state's numbers. A number above the last one counts as that one; one that
    /// counts as saved already changes nothing. It allocates nothing.
    pub fn mark_saved_to(&mut self, peer: u8, sent: u64, received: u64)
        requires { peer < length self.old.links }
        ensures done { self.new ≡ kept_peer self.old peer sent received }
        ensures sound { IsLinks self.new }
    {
        self.by_node[usize::from(peer)].mark_saved_to(sent, received);
    }
}
