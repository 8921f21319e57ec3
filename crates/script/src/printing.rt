//! Prints the outcomes of a script's lines.
ghost use Rattle.std.specs.Prelude.{◌≡◌, ◌∷◌, [], ◌++◌, OnOk};
ghost use Rattle.std.specs.Io.KnownBytes.{Appends};
ghost use Rattle.script.specs.Text.{answer_text, cycle_line, outcome_text, report_text};

use crate::ending::Ending;
use crate::text::{put_answer, put_outcome, put_reply};
use model::{Answer, Outcome};
use std::io;
use std::io::Write;
use std::marker::Model;

/// A line that is to be printed. Every line is built in the same buffer, because a new buffer would
/// be zeroed first.
#[derive(Drop)]
pub struct Printer {
    line: Ending,
}

impl Model for Printer {
    ghost use Rattle.std.specs.Prelude.{List, ℕ, ◌≤◌};
    ghost use Rattle.script.specs.Endings.{held};
    ghost use Rattle.script.specs.declared.ending.TheConstants.{ROOM};

    ghost Value = { List ℕ };

    ghost view = { λ p. held p.line };

    ghost invariant = { λ p. p.line.start ≤ ROOM };
}

impl Printer {
    /// An empty text.
    pub fn new() -> Printer
        ensures { result ≡ [] }
    {
        Printer {
            line: Ending::new(),
        }
    }

    /// Puts what a node answered on the line, in the place of what was there. The optimizer inlines
    /// it if there is one call of it; for others there is [`Printer::put_reply`].
    pub fn put_answer(&mut self, answer: &Answer)
        ensures { self.new ≡ answer_text answer.now ++ 10 ∷ [] }
    {
        self.line.clear();
        self.line.put_byte(b'\n');
        put_answer(&mut self.line, answer);
    }

    /// The same as [`Printer::put_answer`], in a function that isn't inlined.
    #[inline(always)]
    pub fn put_reply(&mut self, answer: &Answer)
        ensures { self.new ≡ answer_text answer.now ++ 10 ∷ [] }
    {
        self.line.clear();
        self.line.put_byte(b'\n');
        put_reply(&mut self.line, answer);
    }

    /// Puts the outcome of a step that wasn't refused on the line, in the place of what was there.
    #[inline(always)]
    pub fn put_outcome(&mut self, outcome: &Outcome)
        ensures { self.new ≡ outcome_text outcome.now ++ 10 ∷ [] }
    {
        self.line.clear();
        self.line.put_byte(b'\n');
        put_outcome(&mut self.line, outcome);
    }

    /// Prints the line, in one call.
    pub fn print<W: Write>(&self, out: &mut W) -> io::Result<()>
        ensures { OnOk result (Appends (W.contents out.old) (W.contents out.new) self.now) }
    {
        out.write_all(self.line.as_bytes())
    }
}

/// Prints how many objects the sweeps of each cycle freed, one line for each cycle.
pub fn print_report<W: Write>(out: &mut W, sums: &[u64]) -> io::Result<()>
    ensures { OnOk result
        (Appends (W.contents out.old) (W.contents out.new) (report_text sums.now)) }
{
    if sums.is_empty() {
        return writeln!(out, "no sweep");
    }
    for (place, freed) in sums.iter().enumerate() {
        print_cycle(out, place + 1, *freed)?;
    }
    Ok(())
}

/// Prints how many objects the sweeps of a cycle freed.
fn print_cycle<W: Write>(out: &mut W, cycle: usize, freed: u64) -> io::Result<()>
    ensures { OnOk result
        (Appends (W.contents out.old) (W.contents out.new) (cycle_line cycle freed)) }
{
    writeln!(out, "cycle {cycle} freed {freed}")
}
