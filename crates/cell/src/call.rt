//! What a node's thread was asked to do and the outcome, each in a few bytes. The words are those
//! of scripts.
ghost use Rattle.std.specs.Prelude.{◌≡◌, Some};
ghost use Rattle.cell.specs.Lines.{call_of, outcome_text, word_of};

use ids::Refusal;
use model::{Event, Scope};
use std::fmt;

/// What a node's thread was asked to do: an event of its node, a save, or a reopening of its disk.
#[derive(Clone, Copy)]
pub enum Call {
    Alloc,
    Copy,
    Drop,
    Load,
    Store,
    Clear,
    Word,
    SetWord,
    SetBytes,
    Patch,
    Give,
    Post,
    Accept,
    Put,
    Get,
    Fetch,
    Resolve,
    Reclaim,
    ReclaimYoung,
    Begin,
    Scan,
    Pass,
    Sweep,
    Next,
    Data,
    Ack,
    Save,
    Reopen,
}

impl Call {
    /// The call for this event.
    pub fn of(event: &Event) -> Call
        ensures { result ≡ call_of event.now }
    {
        match event {
            Event::Alloc { .. } => Call::Alloc,
            Event::Copy { .. } => Call::Copy,
            Event::Drop { .. } => Call::Drop,
            Event::Load { .. } => Call::Load,
            Event::Store { .. } => Call::Store,
            Event::Clear { .. } => Call::Clear,
            Event::Word { .. } => Call::Word,
            Event::SetWord { .. } => Call::SetWord,
            Event::SetBytes { .. } => Call::SetBytes,
            Event::Patch { .. } => Call::Patch,
            Event::Give { .. } => Call::Give,
            Event::Post { .. } => Call::Post,
            Event::Accept { .. } => Call::Accept,
            Event::Put { .. } => Call::Put,
            Event::Get { .. } => Call::Get,
            Event::Fetch { .. } => Call::Fetch,
            Event::Resolve { .. } => Call::Resolve,
            Event::Reclaim { scope: Scope::All } => Call::Reclaim,
            Event::Reclaim {
                scope: Scope::Young,
            } => Call::ReclaimYoung,
            Event::Begin => Call::Begin,
            Event::Scan => Call::Scan,
            Event::Pass => Call::Pass,
            Event::Sweep { .. } => Call::Sweep,
            Event::Next { .. } => Call::Next,
            Event::Data(_) => Call::Data,
            Event::Ack(_) => Call::Ack,
        }
    }

    /// The call's word or words, as in scripts; `reopen` for a reopening.
    pub fn word(self) -> &'static str
        ensures { result.now ≡ word_of self }
    {
        match self {
            Call::Alloc => "alloc",
            Call::Copy => "copy",
            Call::Drop => "drop",
            Call::Load => "load",
            Call::Store => "store",
            Call::Clear => "clear",
            Call::Word => "word",
            Call::SetWord => "setword",
            Call::SetBytes => "setbytes",
            Call::Patch => "patch",
            Call::Give => "give",
            Call::Post => "post",
            Call::Accept => "accept",
            Call::Put => "put",
            Call::Get => "get",
            Call::Fetch => "fetch",
            Call::Resolve => "resolve",
            Call::Reclaim => "reclaim",
            Call::ReclaimYoung => "reclaim young",
            Call::Begin => "begin",
            Call::Scan => "scan",
            Call::Pass => "pass",
            Call::Sweep => "sweep",
            Call::Next => "next",
            Call::Data => "data",
            Call::Ack => "ack",
            Call::Save => "save",
            Call::Reopen => "reopen",
        }
    }
}

/// The outcome of a call.
#[derive(Clone, Copy)]
pub enum CallOutcome {
    /// It succeeded.
    Done,
    /// The message had been received before.
    Repeat,
    /// The message came before its turn.
    Early,
    /// It was refused.
    Refused(Refusal),
}

impl fmt::Display for CallOutcome {
    ghost output = { λ o. Some (outcome_text o) };

    fn fmt<W: fmt::Write>(&self, f: &mut fmt::Formatter<W>) -> fmt::Result {
        match self {
            CallOutcome::Done => write!(f, "ok"),
            CallOutcome::Repeat => write!(f, "repeat"),
            CallOutcome::Early => write!(f, "early"),
            CallOutcome::Refused(refusal) => write!(f, "{}", refusal.number()),
        }
    }
}
