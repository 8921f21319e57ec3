//! A search for the objects that are needed: which slots it has found, and which of them are still
//! to be followed. A slot waits once at most, so the search takes time linear in the slots and
//! places. It gets its memory at the beginning, 5 bytes for each slot, and can't fail after that.
ghost use Rattle.std.specs.Prelude.{◌≡◌, ◌<◌, true, false, [], ◌∷◌, ◌++◌, length, is_none, IfSome, IfOk, IfErr};
ghost use Rattle.ids.specs.declared.refusal.Refusal.TheVariants.{Memory};
ghost use Rattle.model.specs.Searching.{new_search, noted, is_found};

use ids::Refusal;
use std::alloc::Global;
use std::marker::Model;

/// Which slots a search has found, and which of these it hasn't followed yet.
#[derive(Drop)]
pub(crate) struct Search {
    // For each slot.
    found: Vec<bool>,
    // The last is followed first. There is room for all slots that weren't found.
    left: Vec<u32>,
}

impl Model for Search {
    ghost use Rattle.std.specs.Prelude.{◌+◌, ◌≤◌, length, vec_capacity};
    ghost use Rattle.model.specs.Searching.{Search as Plain, unfound};

    ghost Value = { Plain };

    ghost view = { λ s. record { found = s.found.items; left = s.left.items } };

    ghost invariant = { λ s. unfound s.found.items + length s.left.items ≤ vec_capacity s.left };
}

impl Search {
    /// A search through this many slots that has found nothing. It fails with [`Refusal::Memory`]
    /// if there is no memory for it.
    pub(crate) fn new(alloc: Global, slots: u32) -> Result<Search, Refusal>
        ensures made { IfOk result (λ s. s ≡ new_search slots) }
        ensures refused { IfErr result (λ e. e ≡ Memory) }
    {
        Ok(Search {
            found: vec![in alloc; false; slots as usize]?,
            left: Vec::with_capacity(alloc, slots as usize)?,
        })
    }

    /// Whether the slot was found.
    pub(crate) fn has(&self, slot: u32) -> bool
        ensures { result ≡ is_found self.now slot }
    {
        match self.found.get(slot as usize) {
            Some(found) => *found,
            None => false,
        }
    }

    /// The slot is found. It wasn't before.
    pub(crate) fn note(&mut self, slot: u32)
        requires there { slot < length self.old.found }
        requires new { is_found self.old slot ≡ false }
        ensures { self.new ≡ noted self.old slot }
    {
        self.left.push_reserved(slot);
        self.found[slot as usize] = true;
    }

    /// The slot that is followed next. It doesn't wait any more. `None` if none waits.
    pub(crate) fn next(&mut self) -> Option<u32>
        ensures found { self.new.found ≡ self.old.found }
        ensures none { is_none result ≡ true → self.old.left ≡ [] }
        ensures last { IfSome result (λ slot. self.old.left ≡ self.new.left ++ slot ∷ []) }
    {
        self.left.pop()
    }

    /// For each slot whether it was found.
    pub(crate) fn found(&self) -> &[bool]
        ensures { result.now ≡ self.now.found }
    {
        &self.found
    }
}
