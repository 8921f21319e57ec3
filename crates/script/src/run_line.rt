//! One line of a script that runs on node threads. The grammar is that of scripts on one thread,
//! without what the workers do by themselves, and with three more lines.
ghost use Rattle.std.specs.Prelude.{◌≡◌, IfSome, IsTrue, option_map};
ghost use Rattle.script.specs.Grammar.{is_own_line, line_of, words_of};
ghost use Rattle.script.specs.RunLines.{is_for_workers, is_own_said, of_runs, plain_said, run_line_of, shared_of, wide_event_said, wide_said};
ghost use Rattle.script.specs.RunLines.{with_all, with_word, with_words};
ghost use Rattle.script.specs.Words.{IsTrimmed};

use crate::front::{next_word, past_spaces};
use crate::line::{Line, read_u8, read_u16};
use model::{Event, Step};

/// What one line of such a script says.
#[derive(Drop)]
pub enum RunLine<'a> {
    /// Nothing: the line has no word, or is a comment.
    Blank,
    /// An event of a node's own program.
    Act(u8, Event<'static>),
    /// A restart of a node.
    Restart(u8),
    /// The object that a register names gets the bytes that a word spells.
    SetBytes {
        node: u8,
        object: u16,
        hex: &'a str,
    },
    /// These overwrite its bytes from an offset on.
    Patch {
        node: u8,
        object: u16,
        offset: u32,
        hex: &'a str,
    },
    /// Prints a count of its bytes from an offset on.
    Bytes {
        node: u8,
        object: u16,
        offset: u32,
        count: u32,
    },
    /// A letter to another node, with the references of registers and with the bytes that a word
    /// spells.
    Post {
        node: u8,
        to: u8,
        label: u32,
        first: u16,
        count: u8,
        hex: &'a str,
    },
    /// Prints the bytes of the oldest letter that waits.
    Letter(u8),
    /// A collection cycle, until its end.
    Cycle,
    /// Waits for a letter and accepts it into this register of the node.
    Await {
        node: u8,
        register: u16,
    },
    /// The trace of a node's last calls.
    Trace(u8),
}

impl<'a> RunLine<'a> {
    /// What the line says in a space that is wide or not, or `None` if it is outside the grammar
    /// there. The grammar has `cycle`, `await` with a node and a register, a node and `trace`, and
    /// the lines of other scripts that ask for an event of a program or for a restart. In wide
    /// spaces it also has the lines that other scripts have only there.
    #[tactic(auto, using(crate::proofs::Words::after_spaces))]
    pub fn parse(wide: bool, text: &'a str) -> Option<RunLine<'a>>
        ensures reads { option_map plain_said result ≡ run_line_of wide (words_of text.now) }
        ensures own { IfSome result (λ l. IsTrue (is_own_said l)) }
    {
        match Line::parse(text) {
            Some(line) => shared(wide, line),
            None => of_runs(past_spaces(text)),
        }
    }
}

// What a line of other scripts means here.
fn shared<'a>(wide: bool, line: Line<'a>) -> Option<RunLine<'a>>
    ensures { result ≡ shared_of wide line.entry }
{
    match line {
        Line::Blank => Some(RunLine::Blank),
        Line::Step(Step::Restart(node)) => Some(RunLine::Restart(node)),
        Line::Step(Step::Act(node, event)) => {
            if is_for_workers(&event) {
                None
            } else {
                Some(RunLine::Act(node, event))
            }
        }
        Line::Step(_) => None,
        line => { if wide { wide_said(&line) } else { None } }
    }
}

// What a line that only wide spaces have means here.
fn wide_said<'a>(line: &Line<'a>) -> Option<RunLine<'a>>
    ensures { result ≡ wide_said line.now }
{
    Some(match *line {
        Line::SetBytes { node, object, hex } => RunLine::SetBytes { node, object, hex },
        Line::Patch {
            node,
            object,
            offset,
            hex,
        } => RunLine::Patch {
            node,
            object,
            offset,
            hex,
        },
        Line::Bytes {
            node,
            object,
            offset,
            count,
        } => RunLine::Bytes {
            node,
            object,
            offset,
            count,
        },
        Line::Post {
            node,
            to,
            label,
            first,
            count,
            hex,
        } => RunLine::Post {
            node,
            to,
            label,
            first,
            count,
            hex,
        },
        Line::Letter(node) => RunLine::Letter(node),
        _ => return wide_event(line),
    })
}

// The same for a line that asks for an event.
fn wide_event(line: &Line) -> Option<RunLine<'static>>
    ensures { result ≡ wide_event_said line.now }
{
    match *line {
        Line::Fetch {
            node,
            object,
            label,
            offset,
            count,
        } => {
            let event = Event::Fetch {
                object,
                label,
                offset,
                count,
            };
            Some(RunLine::Act(node, event))
        }
        Line::Resolve {
            node,
            register,
            reference,
        } => {
            let event = Event::Resolve {
                register,
                reference,
            };
            Some(RunLine::Act(node, event))
        }
        Line::Reclaim { node, scope } => Some(RunLine::Act(node, Event::Reclaim { scope })),
        _ => None,
    }
}

// Whether the workers take care of an event: those of the collector, and messages that wait.
fn is_for_workers(event: &Event) -> bool
    ensures { result ≡ is_for_workers event.now }
{
    match event {
        Event::Begin | Event::Scan | Event::Pass | Event::Sweep { .. } | Event::Next { .. } => true,
        _ => false,
    }
}

// The meaning of words that aren't a line of other scripts.
#[tactic(auto, unfolding(crate::specs::RunLines::of_runs))]
fn of_runs(text: &str) -> Option<RunLine<'static>>
    requires { IsTrimmed text.now }
    ensures value { result ≡ of_runs (words_of text.now) }
    ensures own { IfSome result (λ l. IsTrue (is_own_said l)) }
    ensures wordless { option_map plain_said result ≡ result }
{
    let (first, text) = next_word(text)?;
    let Some((second, text)) = next_word(text) else {
        return cycle(first);
    };
    let Some((third, text)) = next_word(text) else {
        return trace(first, second);
    };
    if next_word(text).is_some() {
        return None;
    }
    letter(first, second, third)
}

#[tactic(auto, unfolding(crate::specs::RunLines::with_word))]
fn cycle(word: &str) -> Option<RunLine<'static>>
    ensures value { result ≡ with_word word.now }
    ensures own { IfSome result (λ l. IsTrue (is_own_said l)) }
    ensures wordless { option_map plain_said result ≡ result }
{
    match word {
        "cycle" => Some(RunLine::Cycle),
        _ => None,
    }
}

#[tactic(auto, unfolding(crate::specs::RunLines::with_words))]
fn trace(node: &str, verb: &str) -> Option<RunLine<'static>>
    ensures value { result ≡ with_words node.now verb.now }
    ensures own { IfSome result (λ l. IsTrue (is_own_said l)) }
    ensures wordless { option_map plain_said result ≡ result }
{
    match verb {
        "trace" => Some(RunLine::Trace(read_u8(node)?)),
        _ => None,
    }
}

#[tactic(auto, unfolding(crate::specs::RunLines::with_all))]
fn letter(verb: &str, node: &str, register: &str) -> Option<RunLine<'static>>
    ensures value { result ≡ with_all verb.now node.now register.now }
    ensures own { IfSome result (λ l. IsTrue (is_own_said l)) }
    ensures wordless { option_map plain_said result ≡ result }
{
    match verb {
        "await" => {
            let (node, register) = (read_u8(node)?, read_u16(register)?);
            Some(RunLine::Await { node, register })
        }
        _ => None,
    }
}
