//! A space in one thread. It looks up the nodes that a step names, and leaves the work on one node
//! to its `Site`.
ghost use Rattle.std.specs.Prelude.{◌≡◌, ◌<◌, length, slice_get, IsTrue, IfOk, IfErr, Ok, Err, ◌≢◌, replicate, true};
ghost use Rattle.std.specs.Option.{option_copied, option_map};
ghost use Rattle.ids.specs.declared.refusal.Refusal.TheVariants.{Memory, ImageTooLarge};
ghost use Rattle.model.specs.Steps.{is_own};
ghost use Rattle.node.specs.Keeping.{no_rings};
ghost use Rattle.node.specs.Summaries.{summary_of};
ghost use Rattle.model.specs.World.{World, new_world, is_own_step};
ghost use Rattle.model.specs.declared.step.Outcome.TheVariants as outcome;
ghost use Rattle.model.specs.declared.step.Step.TheVariants as step;
ghost use Rattle.world.specs.Shows.{
  ShowsWorld,
  IsAckOf,
  bytes_read,
  letter_bytes_read,
  letter_read,
  frame_at,
  site_at,
  summary_at,
};
ghost use Rattle.world.specs.Spaces.{
  ShowsSpace,
  SteppedSpace,
  delivered,
  handed,
  keeping_at,
  outcome_by,
};

use crate::site::Site;
use cycles::Phases;
use frames::decode;
use ids::{NodeId, Refusal, Shape};
use model::{Accepted, Answer, Event, Outcome, Step};
use msg::{Ack, Frame};
use node::{Node, Summary};
use std::alloc::Global;
use std::marker::Model;

/// A space of nodes in one thread. For each node it keeps the current node and the image of the one
/// last saved. For each ordered pair of nodes it keeps the bytes of all frames ever released. The
/// current nodes keep early messages, each of which was released.
pub struct Sim {
    alloc: Global,
    sites: Vec<Site>,
}

// Written out, so that the crates above need not prove again how each field is dropped.
impl Drop for Sim {
    fn drop(self) {
        let Sim { alloc: _, sites: _ } = self;
    }
}

impl Model for Sim {
    ghost use Rattle.world.specs.Spaces.{SpaceView};

    ghost Value = { SpaceView };

    ghost use Rattle.std.specs.Prelude.{map};
    ghost use Rattle.world.specs.Shows.{IsSim};
    ghost use Rattle.world.specs.Spaces.{site_of, space_of};

    ghost view = { λ s. space_of s.sites.items };

    ghost invariant = { λ s. IsSim (map site_of s.sites.items) };
}

impl Sim {
    /// Makes a space of new nodes. Fails with `Memory` if allocation fails.
    pub fn new(alloc: Global, shape: Shape) -> Result<Sim, Refusal>
        ensures made { IfOk result (λ s. ShowsSpace s (new_world shape)) }
        ensures early { IfOk result (λ s.
            s.early ≡ replicate shape.nodes (no_rings shape.nodes)) }
        ensures refused { IfErr result (λ e. e ≡ Memory) }
    {
        let mut sites = Vec::new(alloc);
        for number in 0..shape.nodes() {
            sites.push(Site::new(alloc, shape, NodeId { number })?)?;
        }
        Ok(Sim { alloc, sites })
    }

    /// Takes one step.
    ///
    /// It fails with `NoNode`, before anything else, if the step names a node that the space
    /// doesn't have. Otherwise it fails with whatever the node refuses. A save fails with
    /// `ImageTooLarge` if the node's image would be too large, which it never is in a wide space,
    /// and a step fails with `Memory` if allocation fails. A refused step changes nothing, except
    /// that an early message may have left its place.
    ///
    /// Some steps never fail with `Memory`: an event for which a node never does, the delivery of
    /// nothing or of a message that isn't the next one, an acknowledgement, and a save whose image
    /// is too large. (An early letter with references and bytes may, since it is kept.) Only an
    /// acknowledgement drops messages: those up to its number.
    ///
    /// Steps one after another are a run of the definitions, without those that fail with `Memory`
    /// or `ImageTooLarge`. In that run, a `Next` of a message that waits is its delivery.
    pub fn step(&mut self, step: &Step) -> Result<Outcome, Refusal>
        requires own { IsTrue (is_own_step step.now) }
        ensures { SteppedSpace result self.old self.new step.now }
    {
        match *step {
            Step::Act(node, ref event) => self.act_step(node, event),
            Step::Save(node) => self.save_step(node),
            Step::Restart(node) => self.restart(node),
            Step::Deliver { from, to, number } => self.deliver_step(from, to, number),
            Step::Hand { from, to } => self.hand_step(from, to),
        }
    }

    /// Gives a node an event that comes from no other node. This is the step [`Step::Act`], as
    /// [`Sim::step`] takes it, except that only the node's answer is returned.
    #[inline(always)]
    pub fn act(&mut self, node: u8, event: &Event) -> Result<Answer, Refusal>
        requires own { IsTrue (is_own event.now) }
        ensures stepped { SteppedSpace (outcome_by (λ a. outcome.Answer a) result) self.old self.new
            (step.Act node event.now) }
        ensures small { IfErr result (λ e. e ≢ ImageTooLarge) }
    {
        if node >= self.count() {
            return Err(Refusal::NoNode);
        }
        let site = &mut self.sites[usize::from(node)];
        site.act(event)
    }

    /// Saves a node. This is the step [`Step::Save`], as [`Sim::step`] takes it, except that its
    /// outcome is no value.
    #[inline(always)]
    pub fn save(&mut self, node: u8) -> Result<(), Refusal>
        ensures stepped { SteppedSpace (outcome_by (λ _. outcome.Done) result) self.old self.new
            (step.Save node) }
        ensures wide { (site_at self.old.sites node).current.local.shape.wide ≡ true
            → IfErr result (λ e. e ≢ ImageTooLarge) }
    {
        if node >= self.count() {
            return Err(Refusal::NoNode);
        }
        let alloc = self.alloc;
        let site = &mut self.sites[usize::from(node)];
        site.save(alloc)
    }

    /// Delivers the message of this number from one node to another. This is the step
    /// [`Step::Deliver`], as [`Sim::step`] takes it, except that only the node's answer is
    /// returned. `None` if no such message was released.
    #[inline(always)]
    pub fn deliver(&mut self, from: u8, to: u8, number: u64) -> Result<Option<Answer>, Refusal>
        ensures { SteppedSpace (outcome_by delivered result) self.old self.new
            (step.Deliver from to number) }
    {
        let count = self.count();
        if from >= count || to >= count {
            return Err(Refusal::NoNode);
        }
        if from == to {
            return Ok(None);
        }
        let alloc = self.alloc;
        let space = &*self;
        let Some(bytes) = space.released(from, to, number) else {
            return Ok(None);
        };
        // (Matched by reference, since a move would copy it.)
        match &decode(alloc, bytes) {
            Ok(frame) => match frame {
                Frame::Data(message) => {
                    let site = &mut self.sites[usize::from(to)];
                    let answer = site.receive(message)?;
                    Ok(Some(answer))
                }
                // Only messages are released, so these bytes are never those of another frame.
                Frame::Ack(_) => Err(Refusal::BadFrame),
            },
            Err(refusal) => match *refusal {
                Refusal::Memory => {
                    let told = space.site(to).lack(bytes)?;
                    Ok(Some(told))
                }
                other => Err(other),
            },
        }
    }

    /// Gives the node `from` what the saved node `to` acknowledges to it. This is the step
    /// [`Step::Hand`], as [`Sim::step`] takes it, except that only the number acknowledged is
    /// returned. `None` if the two are one node.
    #[inline(always)]
    pub fn hand(&mut self, from: u8, to: u8) -> Result<Option<u64>, Refusal>
        ensures { SteppedSpace (outcome_by handed result) self.old self.new (step.Hand from to) }
    {
        let count = self.count();
        if from >= count || to >= count {
            return Err(Refusal::NoNode);
        }
        if from == to {
            return Ok(None);
        }
        let ack = self.acknowledgement(from, to);
        let site = &mut self.sites[usize::from(from)];
        site.act(&Event::Ack(ack))?;
        Ok(Some(ack.number))
    }

    /// The current node of this number, if there is one.
    pub fn node(&self, number: u8) -> Option<&Node>
        ensures core { option_map (λ n. n.core) (option_copied result)
            ≡ option_map (λ q. q.current) (slice_get self.now.sites number) }
        ensures early { option_map (λ n. n.early) (option_copied result)
            ≡ slice_get self.now.early number }
    {
        Some(self.sites.get(usize::from(number))?.node())
    }

    /// A summary, in numbers, of the current node of this number, if there is one.
    pub fn state(&self, number: u8) -> Option<Summary>
        ensures here { result
            ≡ option_map (λ q. summary_of q.current.local) (slice_get self.now.sites number) }
        ensures shown { (w : World) → ShowsWorld self.now.sites w → result ≡ summary_at w number }
    {
        match self.node(number) {
            Some(node) => Some(node.state()),
            None => None,
        }
    }

    /// These bytes of an object that a register of the node refers to: `count` of them, from
    /// `offset` on. It fails with `NoNode` if the space has no such node, with `NoBytes` if the
    /// object doesn't have all of them, and before that as the reading of its word does.
    pub fn bytes(&self, number: u8, object: u16, offset: u32, count: u32) -> Result<&[u8], Refusal>
        ensures value { IfOk result (λ b. (w : World) → ShowsSpace self.now w
            → bytes_read w number object offset count ≡ Ok b.now) }
        ensures refused { IfErr result (λ e. (w : World) → ShowsSpace self.now w
            → bytes_read w number object offset count ≡ Err e) }
    {
        match self.node(number) {
            Some(node) => node.bytes(object, offset, count),
            None => Err(Refusal::NoNode),
        }
    }

    /// What a program is told of the oldest letter of the node before it accepts it. It fails with
    /// `NoNode` if the space has no such node, and with `NoLetter` if no letter waits.
    pub fn letter(&self, number: u8) -> Result<Accepted, Refusal>
        ensures { (w : World) → ShowsSpace self.now w → result ≡ letter_read w number }
    {
        match self.node(number) {
            Some(node) => node.letter(),
            None => Err(Refusal::NoNode),
        }
    }

    /// The bytes of the oldest letter of the node. It fails as [`Sim::letter`] does.
    pub fn letter_bytes(&self, number: u8) -> Result<&[u8], Refusal>
        ensures value { IfOk result (λ b. (w : World) → ShowsSpace self.now w
            → letter_bytes_read w number ≡ Ok b.now) }
        ensures refused { IfErr result (λ e. (w : World) → ShowsSpace self.now w
            → letter_bytes_read w number ≡ Err e) }
    {
        match self.node(number) {
            Some(node) => node.letter_bytes(),
            None => Err(Refusal::NoNode),
        }
    }

    /// The phases of node 0.
    pub(crate) fn phases(&self) -> &Phases
        ensures some { 0 < length self.now.sites }
        ensures value { result.now ≡ (site_at self.now.sites 0).current.local.phases }
    {
        self.sites[0].node().core().phases()
    }

    /// The site of the node of this number.
    pub(crate) fn site(&self, number: u8) -> &Site
        requires { number < length self.now.sites }
        ensures { result.now ≡ keeping_at self.now number }
    {
        &self.sites[usize::from(number)]
    }

    /// The number of nodes.
    pub fn count(&self) -> u8
        ensures value { result ≡ length self.now.sites }
        ensures early { length self.now.early ≡ length self.now.sites }
    {
        self.sites.len() as u8
    }

    // Kept out of `step`, so that the other steps, which need little, don't pay for this one.
    #[inline(never)]
    fn act_step(&mut self, node: u8, event: &Event) -> Result<Outcome, Refusal>
        requires own { IsTrue (is_own event.now) }
        ensures { SteppedSpace result self.old self.new (step.Act node event.now) }
    {
        match self.act(node, event) {
            Ok(answer) => Ok(Outcome::Answer(answer)),
            Err(refusal) => Err(refusal),
        }
    }

    fn save_step(&mut self, node: u8) -> Result<Outcome, Refusal>
        ensures { SteppedSpace result self.old self.new (step.Save node) }
    {
        match self.save(node) {
            Ok(()) => Ok(Outcome::Done),
            Err(refusal) => Err(refusal),
        }
    }

    #[inline(never)]
    fn deliver_step(&mut self, from: u8, to: u8, number: u64) -> Result<Outcome, Refusal>
        ensures { SteppedSpace result self.old self.new (step.Deliver from to number) }
    {
        match self.deliver(from, to, number) {
            Ok(Some(answer)) => Ok(Outcome::Answer(answer)),
            Ok(None) => Ok(Outcome::NoFrame),
            Err(refusal) => Err(refusal),
        }
    }

    fn hand_step(&mut self, from: u8, to: u8) -> Result<Outcome, Refusal>
        ensures { SteppedSpace result self.old self.new (step.Hand from to) }
    {
        match self.hand(from, to) {
            Ok(Some(number)) => Ok(Outcome::Handed(number)),
            Ok(None) => Ok(Outcome::NoFrame),
            Err(refusal) => Err(refusal),
        }
    }

    #[inline(never)]
    fn restart(&mut self, node: u8) -> Result<Outcome, Refusal>
        ensures { SteppedSpace result self.old self.new (step.Restart node) }
    {
        if node >= self.count() {
            return Err(Refusal::NoNode);
        }
        let alloc = self.alloc;
        let site = &mut self.sites[usize::from(node)];
        site.restart(alloc)?;
        Ok(Outcome::Done)
    }

    /// The bytes of the frame of this number from one node to another, if it was released.
    fn released(&self, from: u8, to: u8, number: u64) -> Option<&[u8]>
        requires { from < length self.now.sites }
        ensures { option_map (λ b. b.now) result ≡ frame_at self.now.sites from to number }
    {
        self.sites[usize::from(from)].frame(to, number)
    }

    /// What the saved node `to` acknowledges to the node `from`.
    fn acknowledgement(&self, from: u8, to: u8) -> Ack
        requires from { from < length self.now.sites }
        requires to { to < length self.now.sites }
        requires apart { from ≢ to }
        ensures { IsAckOf self.now.sites from to result }
    {
        self.sites[usize::from(to)].acknowledgement(from)
    }
}
