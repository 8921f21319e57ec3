//! What holds of all spellings. The law is the contract of a function that does nothing.
ghost use Rattle.std.specs.Prelude.{◌≡◌, ◌++◌, [], ℕ, List};
ghost use Rattle.image_parts.specs.declared.layout.Layout.{Layout};
ghost use Rattle.image_parts.specs.Grammar.{Stored, Fits, spelling};

/// No spelling of an image, of any layout, is a prefix of another. So bytes are at most one
/// image. The function does nothing; its contract states the law.
#[tactic(auto, using(crate::proofs::Readings::no_spelling_begins_another))]
pub fn spellings()
    ensures { (l m : Layout) (s t : Stored) (rest : List ℕ) → Fits l s → Fits m t
        → spelling l s ++ rest ≡ spelling m t → (rest ≡ []) × (l ≡ m) × (s ≡ t) }
{}
