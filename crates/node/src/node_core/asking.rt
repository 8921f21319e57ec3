//! The events that send a message to another node. The last test is whether a number is left for
//! the message. The message is appended before anything else changes. What it carries then becomes
//! shared.
ghost use Rattle.std.specs.Prelude.{◌≡◌, false};
ghost use Rattle.model.specs.Checks.{guarded};
ghost use Rattle.model.specs.View.{Performed, view_act};
ghost use Rattle.model.specs.declared.event.Event.TheVariants as event;
ghost use Rattle.node.specs.Sending.{letter_tests};

use super::Core;
use ids::{GREATEST_LETTER, GREATEST_NUMBER, Refusal};
use model::Answer;
use msg::{Body, Frozen, fetch_fits};

impl Core {
    #[tactic(auto, unfolding(model::specs::View::view_act, model::specs::Counting::append, model::specs::Heaps::heap_register))]
    pub(crate) fn give(&mut self, to: u8, label: u32, register: u16) -> Result<Answer, Refusal>
        ensures { Performed false result self.old self.new
            (view_act self.old (event.Give to label register)) }
    {
        if to >= self.shape.nodes() {
            return Err(Refusal::NoNode);
        }
        if to == self.own {
            return Err(Refusal::SelfSend);
        }
        let reference = self.heap.register(register)?;
        let number = self.send(to, Body::Give { label, reference })?;
        self.share(reference);
        Ok(Answer::Sent(number))
    }

    #[inline(never)]
    #[tactic(auto, unfolding(model::specs::View::view_act, model::specs::Counting::append))]
    pub(crate) fn post(
        &mut self,
        to: u8,
        label: u32,
        first: u16,
        count: u8,
        bytes: &[u8],
    ) -> Result<Answer, Refusal>
        ensures { Performed false result self.old self.new
            (view_act self.old (event.Post to label first count bytes.entry)) }
    {
        self.may_post(to, first, count, bytes.len())?;
        let alloc = self.asked.allocator();
        let references = Frozen::new(alloc, self.heap.contents(first, count))?;
        let body = Body::Post {
            label,
            references: references.share()?,
            bytes: Frozen::new(alloc, bytes)?,
        };
        let number = self.send(to, body)?;
        self.share_each(references.as_slice());
        Ok(Answer::Sent(number))
    }

    /// The tests of a Post. The last is whether its message gets a number.
    fn may_post(&self, to: u8, first: u16, count: u8, size: usize) -> Result<(), Refusal>
        ensures { result
            ≡ guarded (letter_tests self.now to first count size) tt }
    {
        if to >= self.shape.nodes() {
            return Err(Refusal::NoNode);
        }
        if to == self.own {
            return Err(Refusal::SelfSend);
        }
        if usize::from(first) + usize::from(count) > self.heap.registers().len() {
            return Err(Refusal::NoRegister);
        }
        if !self.shape.is_wide() || count > self.shape.places() {
            return Err(Refusal::TooManyFields);
        }
        if size > self.shape.bytes() as usize || size > GREATEST_LETTER as usize {
            return Err(Refusal::TooManyBytes);
        }
        if self.links.used(to) >= GREATEST_NUMBER {
            return Err(Refusal::LinkSpent);
        }
        Ok(())
    }

    #[tactic(auto, unfolding(model::specs::View::view_act, model::specs::Counting::append, model::specs::Heaps::heap_register))]
    pub(crate) fn put(&mut self, object: u16, place: u8, register: u16) -> Result<Answer, Refusal>
        ensures { Performed false result self.old self.new
            (view_act self.old (event.Put object place register)) }
    {
        let target = self.heap.register(object)?;
        let reference = self.heap.register(register)?;
        let Some(target) = target else {
            return Err(Refusal::EmptyRegister);
        };
        if target.node == self.own {
            return Err(Refusal::Local);
        }
        if place >= self.shape.places() {
            return Err(Refusal::NoField);
        }
        let body = Body::Put {
            target,
            place,
            reference,
        };
        let number = self.send(target.node, body)?;
        self.share(reference);
        Ok(Answer::Sent(number))
    }

    #[tactic(auto, unfolding(model::specs::View::view_act, model::specs::Counting::append, model::specs::Heaps::heap_register))]
    pub(crate) fn get(&mut self, object: u16, place: u8, label: u32) -> Result<Answer, Refusal>
        ensures { Performed false result self.old self.new
            (view_act self.old (event.Get object place label)) }
    {
        let Some(target) = self.heap.register(object)? else {
            return Err(Refusal::EmptyRegister);
        };
        if target.node == self.own {
            return Err(Refusal::Local);
        }
        if place >= self.shape.places() {
            return Err(Refusal::NoField);
        }
        let body = Body::Get {
            target,
            place,
            label,
        };
        let number = self.send(target.node, body)?;
        Ok(Answer::Sent(number))
    }

    #[inline(never)]
    #[tactic(auto, unfolding(model::specs::View::view_act, model::specs::Counting::append, model::specs::Heaps::heap_register))]
    pub(crate) fn fetch(
        &mut self,
        object: u16,
        label: u32,
        offset: u32,
        count: u32,
    ) -> Result<Answer, Refusal>
        ensures { Performed false result self.old self.new
            (view_act self.old (event.Fetch object label offset count)) }
    {
        let Some(target) = self.heap.register(object)? else {
            return Err(Refusal::EmptyRegister);
        };
        if target.node == self.own {
            return Err(Refusal::Local);
        }
        if !self.shape.is_wide() || !fetch_fits(count) {
            return Err(Refusal::TooManyBytes);
        }
        let body = Body::Fetch {
            target,
            label,
            offset,
            count,
        };
        let number = self.send(target.node, body)?;
        Ok(Answer::Sent(number))
    }
}
