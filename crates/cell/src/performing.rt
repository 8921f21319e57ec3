//! Events of the node at a desk. An event that counts enters the history in the same call. What
//! changes nothing, such as a repeat or the reading of a word, doesn't enter it.
ghost use Rattle.std.specs.Prelude.{◌≡◌, ◌≢◌, ℕ, cond, true, IfErr, IsTrue};
ghost use Rattle.ids.specs.declared.refusal.Refusal.TheVariants.{Memory};
ghost use Rattle.model.specs.Steps.{is_memory_free, is_own};
ghost use Rattle.model.specs.declared.event.Event.TheVariants as events;
ghost use Rattle.model.specs.declared.event.Event.{Event};
ghost use Rattle.model.specs.declared.step.Step.{Step};
ghost use Rattle.msg.specs.declared.frame.Data.{Data};
ghost use Rattle.node.specs.Keeping.{met, own_step};
ghost use Rattle.wire.specs.Readers.{known, IsSeatOf, IsSame};
ghost use Rattle.cell.specs.Desks.{GoesOnAt, IsTaken};
ghost use Rattle.model.specs.Effects.{is_change};
ghost use Rattle.cell.specs.Events.{unsaved_after, Acknowledged, Given, IsDue, MayAct};

use crate::desk::Desk;
use ids::Refusal;
use model::{Answer, Event};
use msg::Ack;
use wire::Wire;

// Whether something is unsaved after an event, which may count.
#[inline(always)]
fn is_unsaved_after(counts: bool, was: bool) -> bool
    ensures { result ≡ cond counts true was }
{
    counts || was
}

impl Desk {
    // Gives the node an event of its own. `Next` of a waiting message is the delivery of that
    // message.
    pub(crate) fn act(&mut self, wire: &Wire, event: &Event) -> Result<Answer, Refusal>
        requires wire { IsSeatOf wire.now self.old.seat }
        requires own { is_own event.now ≡ true }
        ensures given { Given event.now (met self.old.node.early event.now)
            (own_step self.old.node.early (known self.old.seat).me event.now) result
            self.old.node self.new.node (known self.old.seat) (known self.new.seat) }
        ensures memory_free { IsTrue (is_memory_free self.old.node.core.local
            (met self.old.node.early event.now))
            → IfErr result (λ e. e ≢ Memory) }
        ensures unsaved { self.new.unsaved ≡ unsaved_after result self.old.unsaved }
        ensures same { IsSame self.old.seat self.new.seat }
        ensures stays { GoesOnAt self.old self.new }
    {
        // Called for its contract.
        let _core = self.logged.node.core();
        self.perform(wire, event)
    }

    // Gives the node an event. Which step of the space it is, and what it is to the core, only
    // proofs say.
    pub(crate) fn perform(&mut self, wire: &Wire, event: &Event) -> Result<Answer, Refusal>
        ghost was: { Step × Event }
        requires wire { IsSeatOf wire.now self.old.seat }
        requires met { was.1 ≡ met self.old.node.early event.now }
        requires taken { (d : Data) → event.now ≡ events.Data d
            → IsTaken (known self.old.seat).taken d }
        requires may { MayAct (known self.old.seat) was.1 was.0 }
        requires due { (from : ℕ) (d : Data) → event.now ≡ events.Next from
            → was.1 ≡ events.Data d → IsDue (known self.old.seat) self.old.node.core.local d }
        ensures given { Given event.now was.1 was.0 result
            self.old.node self.new.node (known self.old.seat) (known self.new.seat) }
        ensures memory_free { IsTrue (is_memory_free self.old.node.core.local was.1)
            → IfErr result (λ e. e ≢ Memory) }
        ensures unsaved { self.new.unsaved ≡ unsaved_after result self.old.unsaved }
        ensures same { IsSame self.old.seat self.new.seat }
        ensures stays { GoesOnAt self.old self.new }
    {
        let answer = self.logged.act(event)?;
        let counts = wire.enter(&mut self.seat, &answer);
        self.is_unsaved = is_unsaved_after(counts, self.is_unsaved);
        Ok(answer)
    }

    // Gives the node an acknowledgement.
    pub(crate) fn acknowledge(&mut self, ack: Ack) -> Result<Answer, Refusal>
        ensures acknowledged { Acknowledged ack result
            self.old.node self.new.node (known self.old.seat) (known self.new.seat) }
        ensures memory_free { IfErr result (λ e. e ≢ Memory) }
        ensures stays { self.new ≡ record self.old { node = self.new.node } }
    {
        self.logged.act(&Event::Ack(ack))
    }
}
