//! Shared and private objects. An object becomes shared when a message carries its reference.
//! Private ones can be freed without other nodes. In a plain space all objects are shared and old.
ghost use Rattle.std.specs.Prelude.{◌≡◌, true, false, option_to_list};
ghost use Rattle.model.specs.Heaps.{share_all};
ghost use Rattle.model.specs.Shading.{filled};
ghost use Rattle.model.specs.View.{Performed, view_act};
ghost use Rattle.model.specs.declared.event.Event.TheVariants as event;

use super::Core;
use ids::{Ref, Refusal};
use model::{Answer, Scope};

impl Core {
    /// The object of the reference becomes shared, if it is one of this node.
    #[inline(always)]
    pub(super) fn share(&mut self, reference: Option<Ref>)
        ensures { let p = self.old.local in self.new ≡ record self.old {
          local = record p { heap = share_all p.own p.heap (option_to_list reference) };
        } }
    {
        if !self.shape.is_wide() {
            return;
        }
        let own = self.own;
        self.heap.share(own, reference);
    }

    /// The same for each of these references, in a wide space.
    pub(super) fn share_each(&mut self, references: &[Option<Ref>])
        requires { self.old.local.shape.wide ≡ true }
        ensures { let p = self.old.local in self.new ≡ record self.old {
          local = record p { heap = share_all p.own p.heap (filled references.now) };
        } }
    {
        let own = self.own;
        self.heap.share_each(own, references);
    }

    /// Frees the private objects of this scope that nothing needs. It fails with `NothingToDo` if
    /// no object is private or, in a reclaim of the young, all are old, and after that with
    /// `Memory` if there is no memory to search for what is needed.
    #[tactic(auto, using(crate::proofs::Sharing::reclaimings), unfolding(model::specs::View::view_act))]
    pub(crate) fn reclaim(&mut self, scope: Scope) -> Result<Answer, Refusal>
        ensures { Performed false result self.old self.new
            (view_act self.old (event.Reclaim scope)) }
    {
        if !self.shape.is_wide() {
            return Err(Refusal::NothingToDo);
        }
        let own = self.own;
        let freed = self.heap.reclaim(scope, own)?;
        Ok(Answer::Reclaimed(freed))
    }
}
