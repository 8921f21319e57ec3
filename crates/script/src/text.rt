//! The texts of the outcomes of a script's lines. Each outcome has one text, which the
//! specification defines too.
ghost use Rattle.std.specs.Prelude.{◌≡◌, ◌≤◌, ◌+◌, ◌++◌, Some, IfOk, IfErr, codes, decimal, length, string_bytes};
ghost use Rattle.ids.specs.Texts.{reference_text};
ghost use Rattle.ids.specs.declared.refusal.Refusal.TheVariants.{Memory};
ghost use Rattle.script.specs.Endings.{Grows};
ghost use Rattle.script.specs.declared.ending.TheConstants.{ROOM};
ghost use Rattle.script.specs.declared.text.TheConstants.{LONGEST};
ghost use Rattle.script.specs.Text.{answer_text as said, counts_text, cycles_text, done_or_more, freed_text, letter_text, outcome_text, passed_text, ring_text, simple_text, sizes_text, summary_text, yes_or_no};

use crate::ending::Ending;
use crate::frames::ColourText;
use ids::{Ref, Refusal};
use model::{Accepted, Answer, Outcome, Summary};
use msg::{Colour, Token};
use std::alloc::Global;
use std::{fmt, str};

/// The most bytes that the outcome of a step takes, or the body of a message.
pub(crate) const LONGEST: usize = 176;

/// The text of a step's outcome, one of these:
///
/// - a reference
/// - a reference or `-`, for the value of a place
/// - an object's word
/// - `ok`
/// - `sent` and the message's number
/// - `from`, the sender, `label`, the label, and the first reference or `-`; unless the letter went
///   into one register and has no bytes, also `count`, the number of registers, `bytes`, and the
///   number of bytes
/// - `cycle` and the cycle that begins
/// - `scanned` and the reference
/// - `passed`, the token's sum and its colour
/// - `probe again`
/// - `ended` and the cycle
/// - `freed`, the count, and `done` or `more`
/// - `received`, `repeat` or `early`
/// - `ack` and the number acknowledged
/// - `no frame`
///
/// The only error is [`Refusal::Memory`].
pub fn answer_text(alloc: Global, outcome: &Outcome) -> Result<String, Refusal>
    ensures text { IfOk result (λ s. string_bytes s ≡ outcome_text outcome.now) }
    ensures refused { IfErr result (λ e. e ≡ Memory) }
{
    let text = format!(in alloc; "{}", OutcomeText(*outcome))?;
    Ok(text)
}

/// Writes the outcome of a step that wasn't refused.
#[derive(Clone, Copy)]
pub struct OutcomeText(pub Outcome);

impl fmt::Display for OutcomeText {
    ghost output = { λ t. Some (outcome_text t.0) };

    fn fmt<W: fmt::Write>(&self, f: &mut fmt::Formatter<W>) -> fmt::Result {
        let mut text = Ending::new();
        put_outcome(&mut text, &self.0);
        // (each of these texts is ASCII, but no clause says that)
        match str::from_utf8(text.as_bytes()) {
            Ok(text) => f.write_str(text),
            Err(_) => Err(fmt::Error),
        }
    }
}

/// Puts the outcome of a step that wasn't refused before a text.
#[inline(always)]
#[tactic(auto, using(crate::proofs::Endings::both))]
pub(crate) fn put_outcome(text: &mut Ending, outcome: &Outcome)
    requires { (LONGEST ≤ text.old.start) × (text.old.start ≤ ROOM) }
    ensures grows { Grows (outcome_text outcome.now) text.old text.new }
    ensures room { text.new.start ≤ text.old.start }
{
    match outcome {
        Outcome::Answer(answer) => put_reply(text, answer),
        Outcome::Done => text.put(b"ok"),
        Outcome::Handed(number) => put_named(text, b"ack ", *number),
        Outcome::NoFrame => text.put(b"no frame"),
    }
}

/// Puts what a node answered before a text. (What it calls is inlined too, so that an answer need
/// not be in memory.)
#[inline(always)]
#[tactic(auto, using(crate::proofs::Endings::both))]
pub(crate) fn put_answer(text: &mut Ending, answer: &Answer)
    requires { (LONGEST ≤ text.old.start) × (text.old.start ≤ ROOM) }
    ensures grows { Grows (said answer.now) text.old text.new }
    ensures room { text.new.start ≤ text.old.start }
{
    match answer {
        Answer::New(reference) => text.put_reference(*reference),
        Answer::Done => text.put(b"ok"),
        Answer::Value(value) => text.put_optional(*value),
        Answer::Word(word) => text.put_number(*word),
        Answer::Sent(number) => put_named(text, b"sent ", *number),
        Answer::Letter(letter) => put_letter(text, letter),
        Answer::Reclaimed(count) => put_named(text, b"reclaimed ", u64::from(*count)),
        Answer::Begun(cycle) => put_named(text, b"cycle ", *cycle),
        Answer::Scanned(reference) => put_scanned(text, *reference),
        Answer::Passed(token) => put_passed(text, *token),
        Answer::ProbeAgain => text.put(b"probe again"),
        Answer::Ended(cycle) => put_named(text, b"ended ", *cycle),
        Answer::Freed { count, done } => put_freed(text, *count, *done),
        Answer::Received => text.put(b"received"),
        Answer::Repeat => text.put(b"repeat"),
        Answer::Early => text.put(b"early"),
    }
}

/// Puts what a node answered before a text. (Inlined, so that an answer that was just made needs
/// no memory.)
#[inline(always)]
pub(crate) fn put_reply(text: &mut Ending, answer: &Answer)
    requires { (LONGEST ≤ text.old.start) × (text.old.start ≤ ROOM) }
    ensures grows { Grows (said answer.now) text.old text.new }
    ensures room { text.new.start ≤ text.old.start }
{
    put_answer(text, answer);
}

/// Puts a name and a number before a text.
#[inline(always)]
#[tactic(auto, using(crate::proofs::Endings::both))]
fn put_named(text: &mut Ending, name: &[u8], number: u64)
    requires { (length name.now + 20 ≤ text.old.start) × (text.old.start ≤ ROOM) }
    ensures grows { Grows (name.now ++ decimal number) text.old text.new }
    ensures room { text.new.start ≤ text.old.start }
{
    text.put_number(number);
    text.put(name);
}

/// Puts a letter that a program accepted before a text.
#[inline(always)]
#[tactic(auto, using(crate::proofs::Endings::both))]
fn put_letter(text: &mut Ending, letter: &Accepted)
    requires { (LONGEST ≤ text.old.start) × (text.old.start ≤ ROOM) }
    ensures grows { Grows (letter_text letter.now) text.old text.new }
    ensures room { text.new.start ≤ text.old.start }
{
    if letter.count == 1 && letter.length == 0 {
        put_simple(text, letter);
    } else {
        put_sized(text, *letter);
    }
}

/// The same for a letter with several references, or with bytes. (Given by value, so that other
/// letters need no memory.)
#[inline(never)]
#[tactic(auto, using(crate::proofs::Endings::both))]
fn put_sized(text: &mut Ending, letter: Accepted)
    requires { (LONGEST ≤ text.old.start) × (text.old.start ≤ ROOM) }
    ensures grows { Grows (simple_text letter ++ sizes_text letter) text.old text.new }
    ensures room { text.new.start ≤ text.old.start }
{
    text.put_number(letter.length as u64);
    text.put(b" bytes ");
    text.put_number(u64::from(letter.count));
    text.put(b" count ");
    put_simple(text, &letter);
}

/// Puts a letter's sender, its label and its first reference before a text.
#[inline(always)]
#[tactic(auto, using(crate::proofs::Endings::both))]
fn put_simple(text: &mut Ending, letter: &Accepted)
    requires { (115 ≤ text.old.start) × (text.old.start ≤ ROOM) }
    ensures grows { Grows (simple_text letter.now) text.old text.new }
    ensures room { text.new.start ≤ text.old.start }
{
    text.put_optional(letter.reference);
    text.put_byte(b' ');
    text.put_number(u64::from(letter.label));
    text.put(b" label ");
    text.put_number(u64::from(letter.from));
    text.put(b"from ");
}

#[inline(always)]
#[tactic(auto, using(crate::proofs::Endings::both))]
fn put_scanned(text: &mut Ending, reference: Ref)
    requires { (LONGEST ≤ text.old.start) × (text.old.start ≤ ROOM) }
    ensures grows { Grows (codes "scanned " ++ reference_text reference) text.old text.new }
    ensures room { text.new.start ≤ text.old.start }
{
    text.put_reference(reference);
    text.put(b"scanned ");
}

#[inline(always)]
#[tactic(auto, using(crate::proofs::Endings::both))]
fn put_passed(text: &mut Ending, token: Token)
    requires { (LONGEST ≤ text.old.start) × (text.old.start ≤ ROOM) }
    ensures grows { Grows (passed_text token) text.old text.new }
    ensures room { text.new.start ≤ text.old.start }
{
    match token.colour {
        Colour::White => text.put(b"white"),
        Colour::Black => text.put(b"black"),
    }
    text.put_byte(b' ');
    text.put_signed(token.q);
    text.put(b"passed ");
}

#[inline(always)]
#[tactic(auto, using(crate::proofs::Endings::both))]
fn put_freed(text: &mut Ending, count: u32, done: bool)
    requires { (LONGEST ≤ text.old.start) × (text.old.start ≤ ROOM) }
    ensures grows { Grows (freed_text count done) text.old text.new }
    ensures room { text.new.start ≤ text.old.start }
{
    text.put(done_or_more(done).as_bytes());
    text.put_byte(b' ');
    text.put_number(u64::from(count));
    text.put(b"freed ");
}

/// Writes a node in numbers.
#[derive(Clone, Copy)]
pub struct SummaryText(pub Summary);

impl fmt::Display for SummaryText {
    ghost output = { λ t. Some (summary_text t.0) };

    fn fmt<W: fmt::Write>(&self, f: &mut fmt::Formatter<W>) -> fmt::Result {
        let cycles = CyclesText(self.0);
        let ring = RingText(self.0);
        let counts = CountsText(self.0);
        write!(f, "{cycles} {ring} {counts}")
    }
}

/// Writes a node's cycles.
#[derive(Clone, Copy)]
struct CyclesText(Summary);

impl fmt::Display for CyclesText {
    ghost output = { λ t. Some (cycles_text t.0) };

    fn fmt<W: fmt::Write>(&self, f: &mut fmt::Formatter<W>) -> fmt::Result {
        let Summary {
            cycle,
            ended,
            swept,
            ..
        } = self.0;
        write!(f, "cycle {cycle} ended {ended} swept {swept}")
    }
}

/// Writes a node's part of the ring.
#[derive(Clone, Copy)]
struct RingText(Summary);

impl fmt::Display for RingText {
    ghost output = { λ t. Some (ring_text t.0) };

    fn fmt<W: fmt::Write>(&self, f: &mut fmt::Formatter<W>) -> fmt::Result {
        let Summary {
            colour,
            earlier,
            recent,
            ..
        } = self.0;
        let colour = ColourText(colour);
        write!(f, "colour {colour} old {earlier} cur {recent}")
    }
}

/// Writes how much a node holds.
#[derive(Clone, Copy)]
struct CountsText(Summary);

impl fmt::Display for CountsText {
    ghost output = { λ t. Some (counts_text t.0) };

    fn fmt<W: fmt::Write>(&self, f: &mut fmt::Formatter<W>) -> fmt::Result {
        let Summary {
            grey,
            live,
            has_token,
            letters,
            ..
        } = self.0;
        let token = yes_or_no(has_token);
        write!(f, "grey {grey} live {live} token {token} letters {letters}")
    }
}

fn done_or_more(done: bool) -> &'static str
    ensures { result.now ≡ done_or_more done }
{
    if done { "done" } else { "more" }
}

fn yes_or_no(yes: bool) -> &'static str
    ensures { result.now ≡ yes_or_no yes }
{
    if yes { "yes" } else { "no" }
}
