//! Bytes as scripts spell them: two hexadecimal digits for each, and `-` for none.
ghost use Rattle.std.specs.Prelude.{◌≡◌, ◌⊎◌, Ok, IfErr, IfOk, string_bytes};
ghost use Rattle.hex.specs.declared.error.FromHexError.TheVariants as hex_error;
ghost use Rattle.commands.specs.Script.{hex_bytes, hex_text, writes};

use hex::FromHexError;
use model::Event;
use std::alloc::{AllocError, Global};

/// What a line does with the bytes that it spells.
#[derive(Clone, Copy)]
pub enum Writing {
    /// The object gets them in place of all that it has.
    All {
        object: u16,
    },
    /// They overwrite a part of the object's, from this offset on.
    Part {
        object: u16,
        offset: u32,
    },
    /// They are sent in a letter, with the references of this many registers, from the first one
    /// on.
    Letter {
        to: u8,
        label: u32,
        first: u16,
        count: u8,
    },
}

impl Writing {
    /// The event that writes or sends these bytes.
    pub fn event(self, bytes: &[u8]) -> Event
        ensures { result ≡ writes self bytes.entry }
    {
        match self {
            Writing::All { object } => Event::SetBytes { object, bytes },
            Writing::Part { object, offset } => Event::Patch {
                object,
                offset,
                bytes,
            },
            Writing::Letter {
                to,
                label,
                first,
                count,
            } => Event::Post {
                to,
                label,
                first,
                count,
                bytes,
            },
        }
    }
}

/// The bytes that a word spells. Fails if it spells none, or if an allocation failed.
pub fn bytes_spelled(alloc: Global, word: &str) -> Result<Vec<u8>, FromHexError>
    ensures ok { IfOk result (λ bytes. hex_bytes word.now ≡ Ok bytes.items) }
    ensures err { IfErr result (λ e. (e ≡ hex_error.OutOfMemory) ⊎ (hex_bytes word.now ≡ Err e)) }
{
    if word == "-" {
        Ok(Vec::new(alloc))
    } else {
        hex::decode(alloc, word)
    }
}

/// The text that spells these bytes.
pub fn text_of_bytes(alloc: Global, bytes: &[u8]) -> Result<String, AllocError>
    ensures { IfOk result (λ text. string_bytes text ≡ hex_text bytes.now) }
{
    if bytes.is_empty() {
        String::from_str(alloc, "-")
    } else {
        hex::encode(alloc, bytes)
    }
}
