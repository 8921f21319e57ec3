//! Why arguments are rejected, and what is printed then.
ghost use Rattle.std.specs.Prelude.{◌≡◌, ◌++◌, ◌∷◌, [], IfOk, OnOk, codes};
ghost use Rattle.std.specs.Io.KnownBytes.{Appends};
ghost use Rattle.std.specs.IoError.{error_kind};
ghost use Rattle.clap.specs.Words.{kind_of};
ghost use Rattle.clap.specs.declared.error.ErrorKind.TheVariants as parse;
ghost use Rattle.std.specs.declared.io.ErrorKind.TheVariants as io;
ghost use Rattle.words.specs.declared.fault.WordsError.TheVariants.{OutOfMemory};
ghost use Rattle.words.specs.Called.{TellsMemory};

use crate::status::{REFUSED, UNREADABLE};
use clap::Error;
use clap::error::ErrorKind;
use std::alloc::AllocError;
use std::io;
use std::io::Write;

/// Why arguments are rejected.
#[derive(Clone, Copy)]
pub enum WordsError {
    /// Allocation failed.
    OutOfMemory,
    /// The program doesn't know them, or they ask for help.
    Unknown,
}

impl From<Error> for WordsError {
    ghost from_gives = { λ e fault. TellsMemory parse.OutOfMemory (kind_of e) fault };

    fn from(error: Error) -> WordsError {
        match error.kind() {
            ErrorKind::OutOfMemory => WordsError::OutOfMemory,
            _ => WordsError::Unknown,
        }
    }
}

impl From<io::Error> for WordsError {
    ghost from_gives = { λ e fault. TellsMemory io.OutOfMemory (error_kind e) fault };

    fn from(error: io::Error) -> WordsError {
        match error.kind() {
            io::ErrorKind::OutOfMemory => WordsError::OutOfMemory,
            _ => WordsError::Unknown,
        }
    }
}

impl From<AllocError> for WordsError {
    ghost from_gives = { λ _ fault. fault ≡ OutOfMemory };

    fn from(_error: AllocError) -> WordsError {
        WordsError::OutOfMemory
    }
}

/// Prints that the arguments are rejected, and returns the exit status: 1 if memory ran out, else
/// 2. It fails if the output does.
pub fn print_refused_words<W: Write>(out: &mut W, error: WordsError) -> io::Result<u8>
    ensures printed { OnOk result
        (Appends (W.contents out.old) (W.contents out.new) (codes "words refused" ++ 10 ∷ [])) }
    ensures memory { error ≡ WordsError.OutOfMemory → IfOk result (λ status. status ≡ 1) }
    ensures unknown { error ≡ WordsError.Unknown → IfOk result (λ status. status ≡ 2) }
{
    writeln!(out, "words refused")?;
    Ok(match error {
        WordsError::OutOfMemory => REFUSED,
        WordsError::Unknown => UNREADABLE,
    })
}
