//! The events that come from other nodes: messages and acknowledgements. Whether a node may join is
//! tested on the node as it is. What the ring and the end of marking require is tested on the node
//! after it has joined, since a token may be the very message by which it joins. In its turn, no
//! message that a node has released fails these tests.
ghost use Rattle.std.specs.Prelude.{◌≡◌, ◌≢◌, ◌<◌, ◌&&◌, true, false, option_to_list, IsTrue, IfErr, OnErr};
ghost use Rattle.ids.specs.declared.refusal.Refusal.TheVariants.{Memory};
ghost use Rattle.std.specs.List.{list_all};
ghost use Rattle.model.specs.Shading.{filled, is_calm, joined};
ghost use Rattle.model.specs.Steps.{
  are_within,
  is_marking,
  is_memory_free,
  is_within,
  may_follow,
  may_reach,
  may_settle,
  may_take,
  mentioned,
};
ghost use Rattle.model.specs.View.{Performed, Performs, view_act};
ghost use Rattle.model.specs.declared.event.Event.TheVariants as event;
ghost use Rattle.msg.specs.Limits.{is_post};
ghost use Rattle.node.specs.Parts.{is_placed};

use super::Core;
use super::parts::is_placed;
use ids::{Ref, Refusal, Shape};
use link_ends::Offer;
use model::Answer;
use msg::{Ack, Body, Data};

impl Core {
    #[tactic(auto, unfolding(model::specs::View::view_act, model::specs::Steps::taken_in))]
    pub(crate) fn take_in(&mut self, frame: &Data) -> Result<Answer, Refusal>
        ensures performed { Performed true result self.old self.new
            (view_act self.old (event.Data frame.now)) }
        ensures memory_free { IsTrue (is_memory_free self.old.local (event.Data frame.now))
            → IfErr result (λ e. e ≢ Memory) }
    {
        if !self.is_addressed(frame.from, frame.to) {
            return Err(Refusal::WrongNode);
        }
        match self.links.offer(frame.from, frame.number)? {
            Offer::Repeat => return Ok(Answer::Repeat),
            Offer::Early => return Ok(Answer::Early),
            Offer::Next => {}
        }
        if !self.may_take(frame.from, frame.stamp, &frame.body) {
            return Err(Refusal::WrongNode);
        }
        self.receive(frame.from, frame.stamp, &frame.body)?;
        self.count_in(frame.from, frame.stamp, &frame.body);
        Ok(Answer::Received)
    }

    /// No message waits for its turn here.
    #[tactic(auto, unfolding(model::specs::View::view_act))]
    pub(crate) fn next(&self, from: u8) -> Result<Answer, Refusal>
        ensures performs { Performs false result self.now (view_act self.now (event.Next from)) }
        ensures memory_free { IfErr result (λ e. e ≢ Memory) }
    {
        if from >= self.shape.nodes() {
            return Err(Refusal::NoNode);
        }
        Err(Refusal::NothingToDo)
    }

    fn may_take(&self, from: u8, stamp: u64, body: &Body) -> bool
        ensures { result ≡ may_take self.now.local from stamp body.now }
    {
        self.may_reach(stamp) && self.suits(from, stamp, body)
    }

    /// Whether the node is in this cycle or past it, or may join it.
    pub(super) fn may_reach(&self, stamp: u64) -> bool
        ensures { result ≡ may_reach self.now.local stamp }
    {
        let cycle = self.phases.cycle();
        stamp <= cycle || (self.own != 0 && (stamp <= cycle + 1 && cycle <= self.phases.swept()))
    }

    /// The tests of each body: whether its references are within the shape, whether the node may
    /// follow such a body from that node, and whether it fits the node once that has joined the
    /// message's cycle. (Node 0 joins no cycle, so no Swept is of a later one.)
    #[inline(always)]
    #[tactic(auto, using(crate::proofs::Receipts::joining))]
    fn suits(&self, from: u8, stamp: u64, body: &Body) -> bool
        ensures { result ≡ (are_within self.now.local.shape (mentioned body.now)
            && (may_follow self.now.local from body.now
            && may_settle (joined self.now.local stamp).local stamp body.now)) }
    {
        match *body {
            Body::Begin => from == 0,
            Body::Token(_) => {
                from == (self.own + 1) % self.shape.nodes()
                    && (self.marks_once_joined(stamp) && !self.has_token())
            }
            Body::Mark { target } => self.is_within(target) && target.node == self.own,
            Body::Get { target, .. } | Body::Fetch { target, .. } => {
                self.is_within(target) && (target.node == self.own && self.is_placed(body))
            }
            Body::Post { .. } => self.suits_post(body),
            Body::Give { reference, .. } => self.is_any_within(reference),
            Body::Put {
                target,
                reference,
                ..
            } => {
                (self.is_within(target) && self.is_any_within(reference))
                    && (target.node == self.own && self.is_placed(body))
            }
            Body::Ended => {
                from == 0
                    && (self.marks_once_joined(stamp)
                        && (self.is_calm_once_joined(stamp) && !self.has_token()))
            }
            Body::Swept => self.is_director() && stamp >= self.cycle(),
        }
    }

    /// The tests of a letter with references and bytes. (Of other bodies it says nothing.)
    #[inline(never)]
    fn suits_post(&self, body: &Body) -> bool
        ensures { is_post body.now ≡ true
            → result ≡ (are_within self.now.local.shape (mentioned body.now)
            && is_placed self.now.local.shape body.now) }
    {
        match body {
            Body::Post { references, .. } => {
                are_within(self.shape, references.as_slice()) && self.is_placed(body)
            }
            _ => true,
        }
    }

    /// Whether an object of the space may have the place that the body names, and whether the space
    /// has letters as large as the body is or asks for. (Not inlined, so that no other body is
    /// loaded for its sake.)
    #[inline(never)]
    fn is_placed(&self, body: &Body) -> bool
        ensures { result ≡ is_placed self.now.local.shape body.now }
    {
        is_placed(self.shape, body)
    }

    fn is_any_within(&self, reference: Option<Ref>) -> bool
        ensures { result ≡ are_within self.now.local.shape (option_to_list reference) }
    {
        match reference {
            Some(reference) => self.is_within(reference),
            None => true,
        }
    }

    fn is_within(&self, reference: Ref) -> bool
        ensures { result ≡ is_within self.now.local.shape reference }
    {
        reference.node < self.shape.nodes() && reference.slot < self.shape.slots()
    }

    /// Whether the node, once it has joined this cycle, is in it and doesn't know its marking to
    /// have ended.
    #[tactic(auto, using(crate::proofs::Receipts::joining))]
    fn marks_once_joined(&self, stamp: u64) -> bool
        ensures { result ≡ is_marking (joined self.now.local stamp).local stamp }
    {
        let cycle = self.phases.cycle();
        stamp > cycle || (stamp == cycle && self.phases.ended() != cycle)
    }

    /// Whether no object is grey once the node has joined this cycle.
    #[tactic(auto, using(crate::proofs::Receipts::joining))]
    fn is_calm_once_joined(&self, stamp: u64) -> bool
        ensures { result ≡ is_calm (joined self.now.local stamp).local.heap }
    {
        let calm = self.is_calm();
        if stamp > self.phases.cycle() {
            calm && !self.heap.wakes_root(self.own, stamp)
        } else {
            calm
        }
    }

    /// Drops the messages that were acknowledged.
    #[inline(always)]
    #[tactic(auto, unfolding(model::specs::View::view_act))]
    pub(crate) fn acknowledge(&mut self, ack: Ack) -> Result<Answer, Refusal>
        ensures performed { Performed false result self.old self.new
            (view_act self.old (event.Ack ack)) }
        ensures memory_free { IfErr result (λ e. e ≢ Memory) }
    {
        if !self.is_addressed(ack.by, ack.of) {
            return Err(Refusal::WrongNode);
        }
        self.links.trim(ack.by, ack.number)?;
        Ok(Answer::Done)
    }
}

// Whether these references are within the shape.
pub(super) fn are_within(shape: Shape, references: &[Option<Ref>]) -> bool
    ensures { result ≡ are_within shape (filled references.now) }
{
    is_each_within(shape, references)
}

fn is_each_within(shape: Shape, references: &[Option<Ref>]) -> bool
    ensures { result ≡ list_all (λ v. are_within shape (option_to_list v)) references.now }
{
    references
        .iter()
        .all(|reference| is_any_within(shape, *reference))
}

fn is_any_within(shape: Shape, reference: Option<Ref>) -> bool
    ensures { result ≡ are_within shape (option_to_list reference) }
{
    match reference {
        Some(reference) => reference.node < shape.nodes() && reference.slot < shape.slots(),
        None => true,
    }
}
