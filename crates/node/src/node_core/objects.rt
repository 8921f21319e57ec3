//! The events on a node's own registers, objects and letters. A reference that a program reads from
//! a place is shaded at the read. Otherwise the program could empty the place afterwards, and hold
//! what no scan would find. What it stores came from a register, and was shaded or vouched for
//! before.
ghost use Rattle.std.specs.Prelude.{◌≡◌, ◌≢◌, true, false, IfErr, OnErr};
ghost use Rattle.ids.specs.declared.refusal.Refusal.TheVariants.{Memory};
ghost use Rattle.model.specs.View.{Performed, Performs, view_act};
ghost use Rattle.model.specs.declared.event.Event.TheVariants as event;

use super::Core;
use super::errands::Extra;
use ids::{Ref, Refusal};
use model::Answer;

impl Core {
    #[inline(always)]
    #[tactic(auto, using(crate::proofs::Sound::allocated), unfolding(model::specs::View::view_act, model::specs::Heaps::heap_alloc))]
    pub(crate) fn allocate(&mut self, register: u16, places: u8) -> Result<Answer, Refusal>
        ensures { Performed false result self.old self.new
            (view_act self.old (event.Alloc register places)) }
    {
        let (shape, own, cycle) = (self.shape, self.own, self.phases.cycle());
        let reference = self.heap.alloc(shape, own, cycle, register, places)?;
        Ok(Answer::New(reference))
    }

    #[tactic(auto, unfolding(model::specs::View::view_act, model::specs::Heaps::heap_copy))]
    pub(crate) fn copy_register(&mut self, register: u16, source: u16) -> Result<Answer, Refusal>
        ensures performed { Performed false result self.old self.new
            (view_act self.old (event.Copy register source)) }
        ensures memory_free { IfErr result (λ e. e ≢ Memory) }
    {
        self.heap.copy_register(register, source)?;
        Ok(Answer::Done)
    }

    #[tactic(auto, unfolding(model::specs::View::view_act, model::specs::Heaps::heap_drop))]
    pub(crate) fn drop_register(&mut self, register: u16) -> Result<Answer, Refusal>
        ensures performed { Performed false result self.old self.new
            (view_act self.old (event.Drop register)) }
        ensures memory_free { IfErr result (λ e. e ≢ Memory) }
    {
        self.heap.drop_register(register)?;
        Ok(Answer::Done)
    }

    #[inline(always)]
    #[tactic(auto, using(crate::proofs::Shading::shading), unfolding(model::specs::View::view_act))]
    pub(crate) fn load(&mut self, register: u16, object: u16, place: u8) -> Result<Answer, Refusal>
        ensures { Performed true result self.old self.new
            (view_act self.old (event.Load register object place)) }
    {
        let value = self.loaded(register, object, place)?;
        let cycle = self.cycle();
        self.run(cycle, true, &[value], Extra::Nothing)?;
        self.set_register(register, value);
        Ok(Answer::Value(value))
    }

    #[inline(always)]
    #[tactic(auto, using(crate::proofs::Refusing::store_refused), unfolding(model::specs::View::view_act, model::specs::Heaps::heap_store))]
    pub(crate) fn store(&mut self, object: u16, place: u8, register: u16) -> Result<Answer, Refusal>
        ensures performed { Performed false result self.old self.new
            (view_act self.old (event.Store object place register)) }
        ensures memory_free { IfErr result (λ e. e ≢ Memory) }
    {
        let own = self.own;
        self.heap.store(own, object, place, register)?;
        Ok(Answer::Done)
    }

    #[tactic(auto, unfolding(model::specs::View::view_act, model::specs::Heaps::heap_clear))]
    pub(crate) fn clear(&mut self, object: u16, place: u8) -> Result<Answer, Refusal>
        ensures performed { Performed false result self.old self.new
            (view_act self.old (event.Clear object place)) }
        ensures memory_free { IfErr result (λ e. e ≢ Memory) }
    {
        let own = self.own;
        self.heap.clear(own, object, place)?;
        Ok(Answer::Done)
    }

    #[tactic(auto, unfolding(model::specs::View::view_act, model::specs::Heaps::heap_word))]
    pub(crate) fn word(&self, object: u16) -> Result<Answer, Refusal>
        ensures performs { Performs false result self.now (view_act self.now (event.Word object)) }
        ensures memory_free { IfErr result (λ e. e ≢ Memory) }
    {
        let word = self.heap.word(self.own, object)?;
        Ok(Answer::Word(word))
    }

    #[tactic(auto, unfolding(model::specs::View::view_act, model::specs::Heaps::heap_set_word))]
    pub(crate) fn set_word(&mut self, object: u16, word: u64) -> Result<Answer, Refusal>
        ensures performed { Performed false result self.old self.new
            (view_act self.old (event.SetWord object word)) }
        ensures memory_free { IfErr result (λ e. e ≢ Memory) }
    {
        let own = self.own;
        self.heap.set_word(own, object, word)?;
        Ok(Answer::Done)
    }

    #[tactic(auto, unfolding(model::specs::View::view_act, model::specs::Heaps::heap_set_bytes))]
    pub(crate) fn set_bytes(&mut self, object: u16, bytes: &[u8]) -> Result<Answer, Refusal>
        ensures { Performed false result self.old self.new
            (view_act self.old (event.SetBytes object bytes.entry)) }
    {
        let (own, shape) = (self.own, self.shape);
        self.heap.set_bytes(own, shape, object, bytes)?;
        Ok(Answer::Done)
    }

    #[tactic(auto, unfolding(model::specs::View::view_act, model::specs::Heaps::heap_patch))]
    pub(crate) fn patch(
        &mut self,
        object: u16,
        offset: u32,
        bytes: &[u8],
    ) -> Result<Answer, Refusal>
        ensures performed { Performed false result self.old self.new
            (view_act self.old (event.Patch object offset bytes.entry)) }
        ensures memory_free { IfErr result (λ e. e ≢ Memory) }
    {
        let (own, shape) = (self.own, self.shape);
        self.heap.patch(own, shape, object, offset, bytes)?;
        Ok(Answer::Done)
    }

    #[tactic(auto, unfolding(model::specs::View::view_act, model::specs::Heaps::heap_accept))]
    pub(crate) fn accept(&mut self, register: u16) -> Result<Answer, Refusal>
        ensures performed { Performed false result self.old self.new
            (view_act self.old (event.Accept register)) }
        ensures memory_free { IfErr result (λ e. e ≢ Memory) }
    {
        let letter = self.heap.take_letter(register)?;
        Ok(Answer::Letter(letter))
    }

    /// The object is marked, so nothing needs to be shaded.
    #[inline(never)]
    #[tactic(auto, unfolding(model::specs::View::view_act))]
    pub(crate) fn resolve(&mut self, register: u16, reference: Ref) -> Result<Answer, Refusal>
        ensures performed { Performed false result self.old self.new
            (view_act self.old (event.Resolve register reference)) }
        ensures memory_free { IfErr result (λ e. e ≢ Memory) }
    {
        if usize::from(register) >= self.heap.registers().len() {
            return Err(Refusal::NoRegister);
        }
        if reference.node != self.own {
            return Err(Refusal::Remote);
        }
        let cycle = self.phases.cycle();
        let Some(marked) = self.heap.is_marked(cycle, reference) else {
            return Err(Refusal::NoField);
        };
        if !marked && self.phases.ended() == cycle {
            return Err(Refusal::NoField);
        }
        if !marked {
            return Err(Refusal::NotNow);
        }
        self.set_register(register, Some(reference));
        Ok(Answer::Done)
    }
}
