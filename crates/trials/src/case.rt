//! A case: the line that is done now, and what it prints.
//!
//! If a word of the line is missing or isn't what its command needs, or if allocation fails, the
//! case ends after this line and prints nothing of it. Until then, a number counts as 0.
ghost use Rattle.std.specs.Prelude.{◌≡◌, true, IfSome};
ghost use Rattle.model.specs.Steps.{is_own};

use hex::FromHexError;
use ids::{Refusal, Saves};
use model::{Event, Step};
use script::Line;
use std::alloc::Global;
use std::fmt::{Debug, Display};
use std::io::BufRead;
use std::str::FromStr;
use std::sync::Wait;

/// Why a case ends early.
#[derive(Clone, Copy)]
enum End {
    /// The line isn't a command, or is one that can't be done now.
    Unknown,
    /// The interpreter itself ran out of memory, or a line couldn't be read.
    Memory,
}

/// What receives the commands of a case, one after another.
pub(crate) trait Subject {
    /// Does what the line says, and prints the outcome.
    fn take(&mut self, case: &mut Case);
}

/// The output or an allocation failed.
pub(crate) const FAILED: u8 = 1;

/// A line isn't a command.
const UNREADABLE: u8 = 2;

/// A line of a case, and what is printed of it.
#[derive(Drop)]
pub(crate) struct Case {
    alloc: Global,
    // The line, and its number, counted from 1.
    line: String,
    number: u64,
    text: String,
    end: Option<End>,
    // Allocation for a line failed, or a line couldn't be printed.
    failed: bool,
}

impl Case {
    /// No line was read yet.
    pub(crate) fn new(alloc: Global) -> Case {
        Case {
            alloc,
            line: String::new(alloc),
            number: 0,
            text: String::new(alloc),
            end: None,
            failed: false,
        }
    }

    /// Reads the next line that is a command, if the case goes on and there is one.
    pub(crate) fn next<R: Wait, B: BufRead>(&mut self, rt: &R, reader: &mut B) -> bool {
        if self.end.is_some() {
            return false;
        }
        for _ in rt.forever() {
            self.line.clear();
            match reader.read_line(&mut self.line) {
                Ok(0) => return false,
                Ok(_) => self.number = self.number.saturating_add(1),
                Err(_) => {
                    self.lacks_memory();
                    return false;
                }
            }
            if !self.line.starts_with('\n') && !self.line.starts_with('#') {
                break;
            }
        }
        true
    }

    /// Prints what the line printed, unless the case ends with it.
    pub(crate) fn flush<R: Print>(&mut self, rt: &R) {
        if self.end.is_none() && rt.print(self.text.as_str()).is_err() {
            self.failed = true;
        }
        self.text.clear();
    }

    /// Prints why the case ended, if a line ended it; the status of the program.
    pub(crate) fn close<R: Print>(&mut self, rt: &R) -> u8 {
        let number = self.number;
        let status = match self.end.take() {
            Some(End::Unknown) => {
                self.show(&format_args!("line {number}: not a command"));
                UNREADABLE
            }
            Some(End::Memory) => {
                self.text("refused 1 Memory");
                FAILED
            }
            None => 0,
        };
        self.flush(rt);
        if self.failed { FAILED } else { status }
    }

    /// The line isn't a command, or is one that can't be done now.
    pub(crate) fn unknown(&mut self) {
        self.end = Some(End::Unknown);
    }

    /// The interpreter ran out of memory.
    pub(crate) fn lacks_memory(&mut self) {
        self.end = Some(End::Memory);
    }

    /// What the line does needs memory, which was or wasn't there.
    pub(crate) fn needs(&mut self, is_there: bool) {
        if !is_there {
            self.lacks_memory();
        }
    }

    /// Whether the case goes on after this line.
    pub(crate) fn goes_on(&self) -> bool {
        self.end.is_none()
    }

    /// The line.
    pub(crate) fn line(&self) -> &str {
        self.line.trim_end()
    }

    /// The first word of the line.
    pub(crate) fn verb(&self) -> &str {
        match self.line().split_once(' ') {
            Some((verb, _)) => verb,
            None => self.line(),
        }
    }

    /// What follows the first word of the line.
    pub(crate) fn rest(&self) -> &str {
        match self.line().split_once(' ') {
            Some((_, rest)) => rest,
            None => "",
        }
    }

    /// The word in this place of the line.
    pub(crate) fn word(&mut self, place: usize) -> &str {
        match self.line.trim_end().split(' ').nth(place) {
            Some(word) => word,
            None => {
                self.end = Some(End::Unknown);
                ""
            }
        }
    }

    /// The number in this place of the line.
    pub(crate) fn number<T: FromStr + Default>(&mut self, place: usize) -> T
    where
        T::Err: Drop,
    {
        match self.word(place).parse::<T>() {
            Ok(number) => number,
            Err(_) => {
                self.unknown();
                T::default()
            }
        }
    }

    /// The node that the line is about: its first word or its second one.
    pub(crate) fn node(&mut self) -> u8 {
        match self.verb().parse::<u8>() {
            Ok(node) => node,
            Err(_) => self.number(1),
        }
    }

    /// What a save writes: events if the last word says so, else images.
    pub(crate) fn saves(&self) -> Saves {
        if self.line().ends_with(" events") {
            Saves::Events
        } else {
            Saves::Images
        }
    }

    /// The folder that the line may name, after four numbers.
    pub(crate) fn folder(&self) -> &str {
        self.line().split(' ').nth(5).unwrap_or("space")
    }

    /// The bytes that the word in this place spells with two hexadecimal digits each; `-` means no
    /// bytes.
    pub(crate) fn bytes(&mut self, place: usize) -> Vec<u8> {
        let alloc = self.alloc;
        let word = self.word(place);
        if word == "-" {
            return Vec::new(alloc);
        }
        match hex::decode(alloc, word) {
            Ok(bytes) => return bytes,
            Err(FromHexError::OutOfMemory) => self.lacks_memory(),
            Err(_) => self.unknown(),
        }
        Vec::new(alloc)
    }

    /// Prints a line of this text.
    pub(crate) fn text(&mut self, text: &str) {
        self.show(&text);
    }

    /// Prints a line that shows the value.
    pub(crate) fn show<T: Display>(&mut self, value: &T) {
        if writeln!(self.text, "{value}").is_err() {
            self.failed = true;
        }
    }

    /// Prints a line that shows the value with the names of its parts.
    pub(crate) fn debug<T: Debug>(&mut self, value: &T) {
        self.show(&format_args!("{value:?}"));
    }

    /// Prints the refusal, by its number and name.
    pub(crate) fn refused(&mut self, refusal: Refusal) {
        self.show(&format_args!("refused {refusal}"));
    }

    /// Prints `ok`, or the refusal.
    pub(crate) fn done(&mut self, done: Result<(), Refusal>) {
        match done {
            Ok(()) => self.text("ok"),
            Err(refusal) => self.refused(refusal),
        }
    }

    /// Prints the answer, or the refusal.
    pub(crate) fn answer<T: Debug + Drop>(&mut self, answered: Result<T, Refusal>) {
        match answered {
            Ok(answer) => self.debug(&answer),
            Err(refusal) => self.refused(refusal),
        }
    }

    /// Prints two hexadecimal digits for each byte; `-` for no bytes.
    pub(crate) fn put_bytes(&mut self, bytes: &[u8]) {
        if bytes.is_empty() {
            self.text("-");
            return;
        }
        match hex::encode_upper(self.alloc, bytes) {
            Ok(digits) => self.text(digits.as_str()),
            Err(_) => self.failed = true,
        }
    }
}

/// Gives the subject all further lines. Each answer is printed before the next line is read.
pub(crate) fn play<R: Wait + Print, B: BufRead, S: Subject>(
    rt: &R,
    reader: &mut B,
    subject: &mut S,
    case: &mut Case,
) {
    for _ in rt.forever() {
        if !case.next(rt, reader) {
            break;
        }
        subject.take(case);
        case.flush(rt);
    }
}

/// The event that a line of a script gives to a node; it doesn't come from another node.
pub(crate) fn event_in(line: &str) -> Option<Event<'static>>
    ensures { IfSome result (λ e. is_own e ≡ true) }
{
    match Line::parse(line) {
        Some(Line::Step(Step::Act(_node, event))) => Some(event),
        _ => None,
    }
}
