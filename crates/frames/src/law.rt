//! What holds of all spellings.
ghost use Rattle.std.specs.Prelude.{◌≡◌, ◌++◌, [], ℕ, List};
ghost use Rattle.msg.specs.Frames.{Plain};
ghost use Rattle.frames.specs.Grammar.{Fits, spelling};

/// No spelling of a frame is a prefix of another one, so bytes spell at most one frame. The
/// function does nothing; its contract states the law.
pub fn grammar()
    ensures { (f g : Plain) (rest : List ℕ) → Fits f → Fits g
        → spelling f ++ rest ≡ spelling g → (rest ≡ []) × (f ≡ g) }
{}
