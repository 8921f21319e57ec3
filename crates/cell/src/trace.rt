//! The last calls, in memory that is allocated once. So a line can be added even if no memory is
//! left.
ghost use Rattle.std.specs.Prelude.{◌≡◌, ◌++◌, [], ◌∷◌, map, Some, IfOk, IfErr, string_bytes};
ghost use Rattle.circular_buffer.specs.Buffer.{keep_last};
ghost use Rattle.ids.specs.declared.limits.TheConstants.{TRACE_EVENTS};
ghost use Rattle.ids.specs.declared.refusal.Refusal.TheVariants.{Memory};
ghost use Rattle.cell.specs.Lines.{line_text};

use crate::call::{Call, CallOutcome};
use circular_buffer::HeapCircularBuffer;
use ids::{Refusal, TRACE_EVENTS};
use std::alloc::Global;
use std::fmt;
use std::marker::Model;

/// A call and its outcome. Its text is the call's word, and `ok`, `repeat`, `early` or the number
/// of the refusal.
#[derive(Clone, Copy)]
pub struct TraceLine {
    pub call: Call,
    pub outcome: CallOutcome,
}

impl fmt::Display for TraceLine {
    ghost output = { λ l. Some (line_text l) };

    fn fmt<W: fmt::Write>(&self, f: &mut fmt::Formatter<W>) -> fmt::Result {
        write!(f, "{} {}", self.call.word(), self.outcome)
    }
}

/// The last [`TRACE_EVENTS`] calls.
pub struct Trace {
    lines: HeapCircularBuffer<TraceLine, Global>,
}

// Written out, so that the crates above need not prove again how each field is dropped.
impl Drop for Trace {
    fn drop(self) {
        let Trace { lines: _ } = self;
    }
}

impl Model for Trace {
    ghost use Rattle.std.specs.Prelude.{◌≡◌, List};
    ghost use Rattle.ids.specs.declared.limits.TheConstants.{TRACE_EVENTS};
    ghost use Rattle.cell.specs.declared.trace.TraceLine.{TraceLine};

    ghost Value = { List TraceLine };

    ghost view = { λ t. t.lines.items };

    ghost invariant = { λ t. t.lines.capacity ≡ TRACE_EVENTS };
}

impl Trace {
    /// An empty trace, with room for all that it will hold. `Memory` if allocation fails.
    pub fn new(alloc: Global) -> Result<Trace, Refusal>
        ensures empty { IfOk result (λ t. t ≡ []) }
        ensures refused { IfErr result (λ e. e ≡ Memory) }
    {
        let lines = HeapCircularBuffer::with_capacity(alloc, TRACE_EVENTS)?;
        Ok(Trace { lines })
    }

    /// Adds a call. If the trace is full, it replaces the oldest one. It allocates nothing.
    pub fn push(&mut self, call: Call, outcome: CallOutcome)
        ensures { self.new
            ≡ keep_last TRACE_EVENTS (self.old ++ record { call = call; outcome = outcome } ∷ []) }
    {
        self.lines.push_back(TraceLine { call, outcome });
    }

    /// The texts of the calls, the oldest first. `Memory` if allocation fails.
    pub fn lines(&self, alloc: Global) -> Result<Vec<String>, Refusal>
        ensures texts { IfOk result (λ v. map string_bytes v.items ≡ map line_text self.now) }
        ensures refused { IfErr result (λ e. e ≡ Memory) }
    {
        let mut texts = Vec::with_capacity(alloc, self.lines.len())?;
        for place in 0..self.lines.len() {
            if let Some(line) = self.lines.get(place) {
                texts.push(format!(in alloc; "{line}")?)?;
            }
        }
        Ok(texts)
    }
}
