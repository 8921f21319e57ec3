//! What node 0 concludes from the token once it has gone round. If node 0 can't conclude that
//! marking has ended, it starts another probe.
use msg::Token;

/// What node 0 concludes from the token once it has gone round.
#[derive(Clone, Copy)]
pub enum Verdict {
    /// Marking has ended everywhere.
    Ended,
    /// Marking may not have ended yet: this token goes round next.
    Probe(Token),
}
