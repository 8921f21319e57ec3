//! Reads the words of a line that aren't all numbers. Errors are sticky: once a word is missing, or
//! isn't the number that was asked for, the reader has failed and stays so. So callers need not
//! check each word.
ghost use Rattle.std.specs.Prelude.{◌≡◌, Some};
ghost use Rattle.script.specs.Grammar.{reference_of, u8_of, u16_of, u32_of, words_of};
ghost use Rattle.script.specs.Readers.{Reads, is_done};
ghost use Rattle.script.specs.Words.{IsTrimmed};

use crate::front::next_word;
use crate::line::{read_reference, read_u8, read_u16, read_u32};
use ids::Ref;
use std::marker::Model;

// What a reader that has failed returns.
const NOTHING: Ref = Ref {
    node: 0,
    slot: 0,
    generation: 0,
};

/// Reads words from the front of a text, one after another. Once it has failed, what it returns
/// means nothing, and [`is_done`](Reader::is_done) says so.
#[derive(Drop)]
pub(crate) struct Reader<'a> {
    // The text from the next word on; `None` once the reader has failed.
    rest: Option<&'a str>,
}

impl<'a> Model for Reader<'a> {
    ghost use Rattle.std.specs.Prelude.{IfSome, List, Option, option_map, ℕ};
    ghost use Rattle.script.specs.Grammar.{words_of};
    ghost use Rattle.script.specs.Words.{IsTrimmed};

    ghost Value = { Option (List (List ℕ)) };

    ghost view = { λ r. option_map (λ t. words_of t.now) r.rest };

    ghost invariant = { λ r. IfSome r.rest (λ t. IsTrimmed t.now) };
}

impl<'a> Reader<'a> {
    /// A reader of all words of the text.
    pub(crate) fn new(text: &'a str) -> Reader<'a>
        requires { IsTrimmed text.now }
        ensures { result ≡ Some (words_of text.now) }
    {
        Reader { rest: Some(text) }
    }

    /// Reads a word.
    pub(crate) fn word(&mut self) -> &'a str
        ensures { Reads (λ word. Some word) self.old self.new result.now }
    {
        if let Some(text) = self.rest
            && let Some((word, rest)) = next_word(text)
        {
            self.rest = Some(rest);
            return word;
        }
        self.rest = None;
        ""
    }

    /// Reads a number that fits.
    pub(crate) fn u8(&mut self) -> u8
        ensures { Reads u8_of self.old self.new result }
    {
        match read_u8(self.word()) {
            Some(number) => number,
            None => {
                self.rest = None;
                0
            }
        }
    }

    /// Reads a number that fits.
    pub(crate) fn u16(&mut self) -> u16
        ensures { Reads u16_of self.old self.new result }
    {
        match read_u16(self.word()) {
            Some(number) => number,
            None => {
                self.rest = None;
                0
            }
        }
    }

    /// Reads a number that fits.
    pub(crate) fn u32(&mut self) -> u32
        ensures { Reads u32_of self.old self.new result }
    {
        match read_u32(self.word()) {
            Some(number) => number,
            None => {
                self.rest = None;
                0
            }
        }
    }

    /// Reads a reference.
    pub(crate) fn reference(&mut self) -> Ref
        ensures { Reads reference_of self.old self.new result }
    {
        match read_reference(self.word()) {
            Some(reference) => reference,
            None => {
                self.rest = None;
                NOTHING
            }
        }
    }

    /// Whether it has read all words and hasn't failed.
    pub(crate) fn is_done(&self) -> bool
        ensures { result ≡ is_done self.now }
    {
        match self.rest {
            Some(text) => text.is_empty(),
            None => false,
        }
    }
}
