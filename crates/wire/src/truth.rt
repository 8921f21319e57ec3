//! The theorem that a seat's record of its steps on mailboxes is true. The function does nothing;
//! its contract states the theorem.
ghost use Rattle.std.specs.Prelude.{Vec, ℕ};
ghost use Rattle.std.specs.Global.{Global};
ghost use Rattle.wire.specs.Laws.{VisitsAreTrue};

/// A seat's record of its steps on mailboxes is true, whichever code took the steps. No step that
/// keeps the rule lets a seat say that it found or left a word other than the one that was there.
///
/// The function does nothing; its contract states the theorem.
pub fn laws()
    ensures visits { VisitsAreTrue (λ (v : Vec ℕ Global). v.items) }
{}
