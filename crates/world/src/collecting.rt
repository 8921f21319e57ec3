//! The collector's strategy, played: a space that does nothing else ends its cycle, and has it
//! swept on each node ("Progress" in docs/PROOF.md).
ghost use Rattle.std.specs.Prelude.{◌≡◌, ◌<◌, ◌≤◌, ◌+◌, ◌↔◌, List, length, true, is_some, IsTrue, IfOk, IfErr, IfSome};
ghost use Rattle.std.specs.List.{AllByRecursion};
ghost use Rattle.ids.specs.Limits.{Shaped, IsShape};
ghost use Rattle.model.specs.State.{got_from};
ghost use Rattle.model.specs.World.{World, new_world, run};
ghost use Rattle.model.specs.declared.step.Step.{Step};
ghost use Rattle.model.specs.declared.step.Step.TheVariants as step;
ghost use Rattle.laws.specs.Strategy.{Do, now, least, next_move, next_steps, own_move, is_collectors};
ghost use Rattle.laws.specs.Progress.{IsSwept, current_cycle};
ghost use Rattle.laws.specs.Bounds.{cycle_moves};
ghost use Rattle.world.specs.Shows.{HasTooLarge, site_at};
ghost use Rattle.world.specs.Spaces.{ShowsSpace};
ghost use Rattle.world.specs.Moves.{local_at, awaits, has_awaiting, has_sign, first_with, move_of, IsSound};
ghost use Rattle.world.specs.Collected.{IsOfCode, TakesAll, PlaysUntil, CanCollect, HasCollected, CanFinish, ImagesFit};
ghost use Rattle.ids.specs.declared.refusal.Refusal.TheVariants.{ImageTooLarge, Memory};

use crate::sim::Sim;
use ids::{GREATEST_NUMBER, Refusal};
use model::{Event, Step};
use node::Core;

/// What a search over the nodes looks for.
#[derive(Clone, Copy)]
pub(crate) enum Sign {
    /// An object that is grey.
    Grey,
    /// The token.
    Token,
    /// Another last cycle that was swept than this one.
    Unswept(u64),
}

/// A move of the collector.
#[derive(Drop)]
pub(crate) enum Next {
    /// The node `to` receives the next message from the node `from`, which has this number.
    Bring { from: u8, to: u8, number: u64 },
    /// The node does one of its own events.
    Do { node: u8, event: Event<'static> },
}

fn has_sign(core: &Core, sign: Sign) -> bool
    ensures { result ≡ has_sign sign core.now.local }
{
    match sign {
        Sign::Grey => core.heap().grey() != 0,
        Sign::Token => core.ring().token().is_some(),
        Sign::Unswept(cycle) => core.phases().swept() != cycle,
    }
}

impl Sim {
    fn core(&self, node: u8) -> &Core
        requires { node < length self.now.sites }
        ensures { result.now ≡ (site_at self.now.sites node).current }
    {
        self.site(node).node().core()
    }

    // The first node that has the sign; the number of nodes if none has it.
    fn first(&self, sign: Sign) -> u8
        ensures { result ≡ first_with self.now.sites sign }
    {
        let count = self.count();
        for node in 0..count {
            if has_sign(self.core(node), sign) {
                return node;
            }
        }
        count
    }

    // The number of the next message from one node that the other one will receive, if it is in
    // flight.
    fn in_flight(&self, from: u8, to: u8) -> Option<u64>
        requires from { from < length self.now.sites }
        requires to { to < length self.now.sites }
        ensures there { is_some result ≡ awaits self.now.sites from to }
        ensures number { IfSome result (λ number.
            number ≡ got_from (local_at self.now.sites to) from + 1) }
    {
        let received = self.core(to).taken_from(from);
        if received < self.core(from).appended(to) {
            Some(received + 1)
        } else {
            None
        }
    }

    // The first node to which a message from this one is in flight. If nothing from it is, the
    // number of nodes.
    fn receiver(&self, from: u8) -> u8
        requires { from < length self.now.sites }
        ensures { result ≡ least (length self.now.sites) (awaits self.now.sites from) }
    {
        let count = self.count();
        for to in 0..count {
            if self.in_flight(from, to).is_some() {
                return to;
            }
        }
        count
    }

    // The first node from which a message is in flight. If nothing is in flight, the number of
    // nodes.
    fn sender(&self) -> u8
        ensures { result ≡ least (length self.now.sites) (has_awaiting self.now.sites) }
    {
        let count = self.count();
        for from in 0..count {
            if self.receiver(from) < count {
                return from;
            }
        }
        count
    }

    // The next move that isn't the receipt of a message: while marking goes on, a node scans a grey
    // object, or passes the token. After that each node sweeps all its slots, and last a cycle
    // begins.
    fn own_move(&self) -> (u8, Event<'static>)
        ensures is { (w : World) → ShowsSpace self.now w
            → Do result.0 result.1 ≡ own_move (length self.now.sites) (now w) }
        ensures collects { is_collectors (step.Act result.0 result.1) ≡ true }
    {
        let count = self.count();
        let phases = self.phases();
        if phases.ended() != phases.cycle() {
            let grey = self.first(Sign::Grey);
            return if grey < count {
                (grey, Event::Scan)
            } else {
                (self.first(Sign::Token), Event::Pass)
            };
        }
        let unswept = self.first(Sign::Unswept(phases.cycle()));
        if unswept < count {
            let slots = self.core(unswept).heap().slots();
            (unswept, Event::Sweep { count: slots })
        } else {
            (0, Event::Begin)
        }
    }

    // The collector's next move. Messages in flight are received first.
    fn next_move(&self) -> Next
        ensures is { (w : World) → ShowsSpace self.now w
            → move_of result ≡ next_move (length self.now.sites) (now w) }
        ensures sound { IsSound self.now.sites result }
    {
        let from = self.sender();
        if from < self.count() {
            let to = self.receiver(from);
            let Some(number) = self.in_flight(from, to) else {
                unreachable!()
            };
            return Next::Bring { from, to, number };
        }
        let (node, event) = self.own_move();
        Next::Do { node, event }
    }

    // Takes steps of the collector one after another, until one fails.
    fn take_all(&mut self, steps: &[Step]) -> Result<(), Refusal>
        requires { AllByRecursion (λ s. IsTrue (is_collectors s)) steps.now }
        ensures takes { (w : World) → ShowsSpace self.old w → TakesAll result w self.new steps.now }
        ensures too_large { IfErr result (λ e. e ≡ ImageTooLarge → HasTooLarge self.new.sites) }
    {
        for step in steps {
            self.step(step)?;
        }
        Ok(())
    }

    // Makes the collector's next move.
    fn play(&mut self) -> Result<(), Refusal>
        ensures takes { (w : World) → ShowsSpace self.old w
            → TakesAll result w self.new (next_steps (length self.old.sites) w) }
        ensures too_large { IfErr result (λ e. e ≡ ImageTooLarge → HasTooLarge self.new.sites) }
    {
        match self.next_move() {
            Next::Bring { from, to, number } => self.take_all(&[
                Step::Save(from),
                Step::Save(to),
                Step::Hand { from, to },
                Step::Deliver { from, to, number },
            ]),
            Next::Do { node, event } => self.take_all(&[Step::Act(node, event)]),
        }
    }

    // Whether each node has swept this cycle, which is node 0's, and node 0 was told so.
    fn is_swept(&self, cycle: u64) -> bool
        ensures { (w : World) → ShowsSpace self.now w
            → IsTrue result ↔ IsSwept (length self.now.sites) cycle (now w) }
    {
        let phases = self.phases();
        if phases.cycle() != cycle || !phases.is_swept_everywhere() {
            return false;
        }
        self.first(Sign::Unswept(cycle)) == self.count()
    }

    // Plays until each node has swept this cycle, and returns the number of moves.
    fn play_until(&mut self, cycle: u64) -> Result<u64, Refusal>
        ensures plays { (w : World) → ShowsSpace self.old w
            → PlaysUntil result (length self.old.sites) cycle w self.new }
        ensures too_large { IfErr result (λ e. e ≡ ImageTooLarge → HasTooLarge self.new.sites) }
    {
        for moves in 0..GREATEST_NUMBER {
            if self.is_swept(cycle) {
                return Ok(moves);
            }
            self.play()?;
        }
        Err(Refusal::LinkSpent)
    }

    /// Ends the cycle that node 0 is in, and has each node sweep it: the collector alone makes one
    /// move after another, until node 0 knows that all have swept. Returns the number of moves,
    /// which is 0 if that is so already.
    ///
    /// A move is a scan, a sweep of all slots, a pass of the token, or the receipt of a message.
    /// Before a message is received, both its nodes are saved, which costs an image each.
    /// "Progress" in docs/PROOF.md has the rule by which moves are chosen, and the bound on their
    /// number.
    ///
    /// It fails with `Memory` if allocation fails, with `ImageTooLarge` if a node can't be saved,
    /// and with `LinkSpent` if a link runs out of numbers. Then the moves before that remain made,
    /// and the call may be repeated.
    pub fn finish_cycle(&mut self) -> Result<u64, Refusal>
        ensures plays { (w : World) → ShowsSpace self.old w
            → PlaysUntil result (length self.old.sites) (current_cycle w) w self.new }
        // After any run, no more moves are needed than the theorem's bound. Nothing else fails
        // than memory and the size of an image, if no link runs out of numbers.
        ensures ends { (shape : Shaped) → IsShape shape → (steps : List Step)
            → ShowsSpace self.old (run (new_world shape) steps)
            → CanFinish shape.nodes (run (new_world shape) steps)
            → IfOk result
            (λ k. k ≤ cycle_moves shape.nodes (now (run (new_world shape) steps)))
            × IfErr result IsOfCode }
        // The image of some node is too large if the call fails with `ImageTooLarge`. So only
        // memory can fail if all images fit.
        ensures too_large { IfErr result (λ e. e ≡ ImageTooLarge → HasTooLarge self.new.sites) }
        ensures fits { (shape : Shaped) → IsShape shape → (steps : List Step)
            → ShowsSpace self.old (run (new_world shape) steps)
            → CanFinish shape.nodes (run (new_world shape) steps)
            → ImagesFit shape.nodes (run (new_world shape) steps)
            → IfErr result (λ e. e ≡ Memory) }
    {
        let cycle = self.phases().cycle();
        self.play_until(cycle)
    }

    /// Collects what is garbage: ends the cycle that node 0 is in, as [`Sim::finish_cycle`] does,
    /// begins the next one, and ends that too. Returns the number of moves of both.
    ///
    /// What was reachable from no register, letter or message of the current and saved states at
    /// the start is then gone from the current states, rings of objects across nodes included. Once
    /// each node is saved it is gone for good.
    ///
    /// It fails as [`Sim::finish_cycle`] does, and with `CyclesSpent` if there is no next cycle.
    pub fn collect(&mut self) -> Result<u64, Refusal>
        ensures plays { (w : World) → ShowsSpace self.old w
            → PlaysUntil result (length self.old.sites) (current_cycle w + 1) w self.new }
        // After any run, no more moves are needed than the theorem's bound, and old garbage is
        // gone. Nothing else fails than memory and the size of an image, if no link runs out of
        // numbers.
        ensures ends { (shape : Shaped) → IsShape shape → (steps : List Step)
            → ShowsSpace self.old (run (new_world shape) steps)
            → CanCollect shape.nodes (run (new_world shape) steps)
            → IfOk result (λ k. HasCollected shape.nodes k (run (new_world shape) steps))
            × IfErr result IsOfCode }
        // The image of some node is too large if the call fails with `ImageTooLarge`. So only
        // memory can fail if all images fit.
        ensures too_large { IfErr result (λ e. e ≡ ImageTooLarge → HasTooLarge self.new.sites) }
        ensures fits { (shape : Shaped) → IsShape shape → (steps : List Step)
            → ShowsSpace self.old (run (new_world shape) steps)
            → CanCollect shape.nodes (run (new_world shape) steps)
            → ImagesFit shape.nodes (run (new_world shape) steps)
            → IfErr result (λ e. e ≡ Memory) }
    {
        let cycle = self.phases().cycle();
        self.play_until(cycle + 1)
    }
}
