//! One line of a script. Its words are read one after another; anything outside the grammar is
//! rejected.
ghost use Rattle.std.specs.Prelude.{◌≡◌, false, Some, IfSome, IsTrue, option_and_then, option_map};
ghost use Rattle.std.specs.List.{after_first, before_first};
ghost use Rattle.script.specs.Grammar.{command_of, delivery_of, hand_of, is_own_line, line_of, node_line_of, numbered_of, only_wide, reclaim_of, set_bytes_of, patch_of, bytes_of, post_of, fetch_of, letter_of, plain, reference_of, report_of, resolve_of, space_of, stepped, u8_of, u16_of, u32_of, wide_of, words_of};
ghost use Rattle.script.specs.Grammar.{is_dot};
ghost use Rattle.script.specs.Operands.{read, spelled};
ghost use Rattle.script.specs.declared.line.Line.TheVariants as said;
ghost use Rattle.script.specs.Words.{IsTrimmed, behind, starts_number, word_of};

use crate::asking::{alone, say, say_if, with_one, with_three, with_two};
use crate::front::{
    behind_word, first_number, first_word, is_word, next_word, past_spaces, read_u64,
};
use crate::operands::{Operands, to_u8, to_u16, to_u32};
use crate::reader::Reader;
use ids::Ref;
use model::{Scope, Step};

/// The most digits that a number has, including leading zeros.
pub(crate) const MOST_DIGITS: usize = 20;

/// What one line of a script says.
#[derive(Drop)]
pub enum Line<'a> {
    /// Nothing: the line has no word, or is a comment.
    Blank,
    /// The sizes of the space, which need not be within the limits.
    Space {
        nodes: u8,
        registers: u16,
        slots: u32,
    },
    /// The sizes of a wide space, which need not be within the limits.
    Wide {
        nodes: u8,
        registers: u16,
        slots: u32,
        places: u8,
        bytes: u32,
    },
    /// A step of the space that writes no bytes.
    Step(Step<'static>),
    /// Replaces the bytes of the object that a node's register names by those that a word of the
    /// line spells, if it spells any.
    SetBytes {
        node: u8,
        object: u16,
        hex: &'a str,
    },
    /// Overwrites bytes of the object, from this offset on, by those that a word spells.
    Patch {
        node: u8,
        object: u16,
        offset: u32,
        hex: &'a str,
    },
    /// Asks for this many bytes of the object, from this offset on.
    Bytes {
        node: u8,
        object: u16,
        offset: u32,
        count: u32,
    },
    /// Sends a letter to another node: with the references of this many registers, from the first
    /// one on, and with the bytes that a word spells, if it spells any.
    Post {
        node: u8,
        to: u8,
        label: u32,
        first: u16,
        count: u8,
        hex: &'a str,
    },
    /// Asks the owner of another node's object for its word and this many of its bytes, from this
    /// offset on.
    Fetch {
        node: u8,
        object: u16,
        label: u32,
        offset: u32,
        count: u32,
    },
    /// Puts a reference that the script spells into a node's register.
    Resolve {
        node: u8,
        register: u16,
        reference: Ref,
    },
    /// Asks for the bytes of the oldest letter that waits.
    Letter(u8),
    /// Asks the node to free private objects within the scope that nothing needs.
    Reclaim {
        node: u8,
        scope: Scope,
    },
    /// Asks for the node in numbers.
    State(u8),
    /// Asks what the sweeps of each cycle freed.
    Report,
}

impl<'a> Line<'a> {
    /// What the line says, or `None` if it is outside the grammar. Spaces separate its words.
    pub fn parse(text: &'a str) -> Option<Line<'a>>
        ensures reads { option_map plain result ≡ line_of (words_of text.now) }
        ensures own { IfSome result (λ l. IsTrue (is_own_line l)) }
    {
        let mut line = Line::Blank;
        line.read(text)?;
        Some(line)
    }

    /// Sets this to what the line says. `None` if that is outside the grammar; the value is then
    /// meaningless. A `Line` is large, so it is built in place.
    #[inline(always)]
    pub fn read(&mut self, text: &'a str) -> Option<()>
        ensures reads { read result self.new ≡ line_of (words_of text.now) }
        ensures own { IfSome result (λ done. IsTrue (is_own_line self.new)) }
    {
        line_in(self, past_spaces(text))
    }
}

/// The meaning of the words of a text. (Only the path to a save is inlined, because most lines ask
/// a node for one.)
#[inline(always)]
fn line_in<'a>(line: &mut Line<'a>, text: &'a str) -> Option<()>
    requires { IsTrimmed text.now }
    ensures { read result line.new ≡ line_of (words_of text.now) }
{
    let Some(first) = text.as_bytes().first() else {
        return blank(line);
    };
    if *first == b'#' {
        return blank(line);
    }
    if first.is_ascii_digit() {
        return node_line(line, text);
    }
    command(line, text)
}

/// The meaning of a line without words, and of a comment.
#[inline(never)]
fn blank(line: &mut Line) -> Option<()>
    ensures { read result line.new ≡ Some said.Blank }
{
    say(line, Line::Blank)
}

/// The meaning of a line that begins with a node's number.
#[inline(always)]
fn node_line<'a>(line: &mut Line<'a>, text: &'a str) -> Option<()>
    requires { IsTrimmed text.now }
    ensures { read result line.new
        ≡ option_and_then (λ node. node_line_of node (words_of (behind text.now)))
        (u8_of (word_of text.now)) }
{
    let (number, text) = first_number(text)?;
    asked_of(line, to_u8(number)?, text)
}

/// The meaning of the words after a node's number.
#[inline(always)]
fn asked_of<'a>(line: &mut Line<'a>, node: u8, text: &'a str) -> Option<()>
    requires { IsTrimmed text.now }
    ensures { read result line.new ≡ node_line_of node (words_of text.now) }
{
    if is_word(text, "save") {
        return say(line, Line::Step(Step::Save(node)));
    }
    any_asked_of(line, node, text)
}

/// The same for any words.
#[inline(never)]
fn any_asked_of<'a>(line: &mut Line<'a>, node: u8, text: &'a str) -> Option<()>
    requires { IsTrimmed text.now }
    ensures { read result line.new ≡ node_line_of node (words_of text.now) }
{
    match numbered(line, node, text) {
        Some(()) => Some(()),
        None => only_wide(line, node, text),
    }
}

/// The meaning of the words after a node's number, if all but the verb are numbers.
#[inline(always)]
fn numbered(line: &mut Line, node: u8, text: &str) -> Option<()>
    requires { IsTrimmed text.now }
    ensures { read result line.new ≡ numbered_of node (words_of text.now) }
{
    let (verb, text) = first_word(text);
    match Operands::read(text) {
        Some(Operands::Zero) => alone(line, node, verb),
        Some(Operands::One(a)) => with_one(line, node, verb, a),
        Some(Operands::Two(a, b)) => with_two(line, node, verb, a, b),
        Some(Operands::Three(a, b, c)) => with_three(line, node, verb, a, b, c),
        None => None,
    }
}

/// The meaning of the words after a node's number, if they are about what only wide spaces have.
#[inline(never)]
#[tactic(auto, unfolding(crate::specs::Grammar::only_wide))]
fn only_wide<'a>(line: &mut Line<'a>, node: u8, text: &'a str) -> Option<()>
    requires { IsTrimmed text.now }
    ensures { read result line.new ≡ only_wide node (words_of text.now) }
{
    let (verb, text) = next_word(text)?;
    match verb {
        "setbytes" => set_bytes(line, node, text),
        "patch" => patch(line, node, text),
        "bytes" => bytes(line, node, text),
        "post" => post(line, node, text),
        "fetch" => fetch(line, node, text),
        "resolve" => resolve(line, node, text),
        "letter" => letter(line, node, text),
        "reclaim" => reclaim(line, node, text),
        _ => None,
    }
}

#[tactic(auto, unfolding(crate::specs::Grammar::reclaim_of))]
fn reclaim(line: &mut Line, node: u8, text: &str) -> Option<()>
    requires { IsTrimmed text.now }
    ensures { read result line.new ≡ reclaim_of node (words_of text.now) }
{
    let Some((word, rest)) = next_word(text) else {
        let scope = Scope::All;
        return say(line, Line::Reclaim { node, scope });
    };
    let (right, scope) = ((word == "young") & rest.is_empty(), Scope::Young);
    say_if(line, right, Line::Reclaim { node, scope })
}

fn set_bytes<'a>(line: &mut Line<'a>, node: u8, text: &'a str) -> Option<()>
    requires { IsTrimmed text.now }
    ensures { read result line.new ≡ set_bytes_of node (words_of text.now) }
{
    let mut words = Reader::new(text);
    let (object, hex) = (words.u16(), words.word());
    let said = Line::SetBytes { node, object, hex };
    say_if(line, words.is_done(), said)
}

fn patch<'a>(line: &mut Line<'a>, node: u8, text: &'a str) -> Option<()>
    requires { IsTrimmed text.now }
    ensures { read result line.new ≡ patch_of node (words_of text.now) }
{
    let mut words = Reader::new(text);
    let (object, offset) = (words.u16(), words.u32());
    let hex = words.word();
    let said = Line::Patch {
        node,
        object,
        offset,
        hex,
    };
    say_if(line, words.is_done(), said)
}

fn bytes(line: &mut Line, node: u8, text: &str) -> Option<()>
    requires { IsTrimmed text.now }
    ensures { read result line.new ≡ bytes_of node (words_of text.now) }
{
    let mut words = Reader::new(text);
    let object = words.u16();
    let (offset, count) = (words.u32(), words.u32());
    let said = Line::Bytes {
        node,
        object,
        offset,
        count,
    };
    say_if(line, words.is_done(), said)
}

fn post<'a>(line: &mut Line<'a>, node: u8, text: &'a str) -> Option<()>
    requires { IsTrimmed text.now }
    ensures { read result line.new ≡ post_of node (words_of text.now) }
{
    let mut words = Reader::new(text);
    let (to, label) = (words.u8(), words.u32());
    let (first, count) = (words.u16(), words.u8());
    let hex = words.word();
    let said = Line::Post {
        node,
        to,
        label,
        first,
        count,
        hex,
    };
    say_if(line, words.is_done(), said)
}

fn fetch(line: &mut Line, node: u8, text: &str) -> Option<()>
    requires { IsTrimmed text.now }
    ensures { read result line.new ≡ fetch_of node (words_of text.now) }
{
    let mut words = Reader::new(text);
    let (object, label) = (words.u16(), words.u32());
    let (offset, count) = (words.u32(), words.u32());
    let said = Line::Fetch {
        node,
        object,
        label,
        offset,
        count,
    };
    say_if(line, words.is_done(), said)
}

fn resolve(line: &mut Line, node: u8, text: &str) -> Option<()>
    requires { IsTrimmed text.now }
    ensures { read result line.new ≡ resolve_of node (words_of text.now) }
{
    let mut words = Reader::new(text);
    let (register, reference) = (words.u16(), words.reference());
    let said = Line::Resolve {
        node,
        register,
        reference,
    };
    say_if(line, words.is_done(), said)
}

fn letter(line: &mut Line, node: u8, text: &str) -> Option<()>
    requires { IsTrimmed text.now }
    ensures { read result line.new ≡ letter_of node (words_of text.now) }
{
    say_if(line, text.is_empty(), Line::Letter(node))
}

/// The meaning of a line whose first word isn't a number. (The most frequent words are looked for
/// at its front, so that they need not be searched for a space.)
#[inline(never)]
fn command(line: &mut Line, text: &str) -> Option<()>
    requires trimmed { IsTrimmed text.now }
    requires other { starts_number text.now ≡ false }
    ensures { read result line.new ≡ command_of (word_of text.now) (words_of (behind text.now)) }
{
    if let Some(rest) = behind_word(text, "deliver") {
        return delivery(line, Operands::read(rest)?);
    }
    if let Some(rest) = behind_word(text, "ack") {
        return hand(line, Operands::read(rest)?);
    }
    any_command(line, text)
}

/// The same for any word.
#[inline(never)]
fn any_command(line: &mut Line, text: &str) -> Option<()>
    requires trimmed { IsTrimmed text.now }
    requires other { starts_number text.now ≡ false }
    ensures { read result line.new ≡ command_of (word_of text.now) (words_of (behind text.now)) }
{
    let (first, text) = first_word(text);
    if first == "wide" {
        return wide(line, text);
    }
    let operands = Operands::read(text)?;
    match first {
        "space" => space(line, operands),
        "deliver" => delivery(line, operands),
        "ack" => hand(line, operands),
        "report" => report(line, operands),
        _ => None,
    }
}

#[tactic(auto, unfolding(crate::specs::Grammar::space_of))]
fn space(line: &mut Line, operands: Operands) -> Option<()>
    ensures { read result line.new ≡ space_of (spelled operands) }
{
    let Operands::Three(nodes, registers, slots) = operands else {
        return None;
    };
    let (nodes, registers, slots) = (to_u8(nodes)?, to_u16(registers)?, to_u32(slots)?);
    say(
        line,
        Line::Space {
            nodes,
            registers,
            slots,
        },
    )
}

fn wide(line: &mut Line, text: &str) -> Option<()>
    requires { IsTrimmed text.now }
    ensures { read result line.new ≡ wide_of (words_of text.now) }
{
    let mut words = Reader::new(text);
    let (nodes, registers) = (words.u8(), words.u16());
    let (slots, places, bytes) = (words.u32(), words.u8(), words.u32());
    let said = Line::Wide {
        nodes,
        registers,
        slots,
        places,
        bytes,
    };
    say_if(line, words.is_done(), said)
}

#[tactic(auto, using(crate::proofs::Spelling::u64_of_decimal), unfolding(crate::specs::Grammar::delivery_of))]
fn delivery(line: &mut Line, operands: Operands) -> Option<()>
    ensures { read result line.new ≡ stepped (delivery_of (spelled operands)) }
{
    let Operands::Three(from, to, number) = operands else {
        return None;
    };
    let (from, to) = (to_u8(from)?, to_u8(to)?);
    say(line, Line::Step(Step::Deliver { from, to, number }))
}

#[tactic(auto, unfolding(crate::specs::Grammar::hand_of))]
fn hand(line: &mut Line, operands: Operands) -> Option<()>
    ensures { read result line.new ≡ stepped (hand_of (spelled operands)) }
{
    let Operands::Two(from, to) = operands else {
        return None;
    };
    let (from, to) = (to_u8(from)?, to_u8(to)?);
    say(line, Line::Step(Step::Hand { from, to }))
}

#[tactic(auto, unfolding(crate::specs::Grammar::report_of))]
fn report(line: &mut Line, operands: Operands) -> Option<()>
    ensures { read result line.new ≡ report_of (spelled operands) }
{
    let Operands::Zero = operands else {
        return None;
    };
    say(line, Line::Report)
}

/// The number that the word spells, if it fits.
#[tactic(auto, unfolding(crate::specs::Grammar::u8_of, crate::specs::Grammar::u64_of))]
pub fn read_u8(word: &str) -> Option<u8>
    ensures { result ≡ u8_of word.now }
{
    u8::try_from(read_u64(word)?).ok()
}

/// The number that the word spells, if it fits.
#[tactic(auto, unfolding(crate::specs::Grammar::u16_of, crate::specs::Grammar::u64_of))]
pub fn read_u16(word: &str) -> Option<u16>
    ensures { result ≡ u16_of word.now }
{
    u16::try_from(read_u64(word)?).ok()
}

#[tactic(auto, unfolding(crate::specs::Grammar::u32_of, crate::specs::Grammar::u64_of))]
pub(crate) fn read_u32(word: &str) -> Option<u32>
    ensures { result ≡ u32_of word.now }
{
    u32::try_from(read_u64(word)?).ok()
}

/// The reference that the word spells: its node, slot and generation, separated by dots.
#[tactic(auto, unfolding(crate::specs::Grammar::reference_of))]
pub(crate) fn read_reference(word: &str) -> Option<Ref>
    ensures { result ≡ reference_of word.now }
{
    let (node, rest) = at_dot(word);
    let (slot, generation) = at_dot(rest);
    let (node, slot) = (read_u8(node)?, read_u32(slot)?);
    let generation = read_u64(generation)?;
    Some(Ref {
        node,
        slot,
        generation,
    })
}

/// What precedes the first dot of the text, and what follows it; all and nothing if it has no dot.
fn at_dot(text: &str) -> (&str, &str)
    ensures before { result.0.now ≡ before_first is_dot text.now }
    ensures after { result.1.now ≡ after_first is_dot text.now }
{
    match text.split_once('.') {
        Some(parts) => parts,
        None => (text, ""),
    }
}
