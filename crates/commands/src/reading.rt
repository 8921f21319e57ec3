//! Texts that are read to their end. [`Unread`] shows that one couldn't be read: only the functions
//! of this module make it.
ghost use Rattle.std.specs.Prelude.{◌≡◌, IfOk, IfSome, IsTrue, string_bytes, ◌↔◌};

use std::alloc::Global;
use std::fs::{self, OpenFile};
use std::io::{self, ErrorKind, Read};
use std::rt::Files;

/// Shows that a text couldn't be read.
#[derive(Clone, Copy, Debug)]
pub struct Unread {
    kind: ErrorKind,
}

impl Unread {
    /// Whether memory ran out.
    pub(crate) fn is_memory(&self) -> bool
        ensures { IsTrue result ↔ (self.now.kind ≡ ErrorKind.OutOfMemory) }
    {
        self.kind == ErrorKind::OutOfMemory
    }
}

/// The text that the reader has left. It fails if the reader does, if the bytes aren't UTF-8, or if
/// memory runs out.
pub fn read_text<R: Read + Drop>(alloc: Global, reader: R) -> Result<String, Unread>
    ensures { IfOk result (λ text.
        IfSome (R.remaining reader) (λ bytes. string_bytes text ≡ bytes)) }
{
    match io::read_to_string(alloc, reader) {
        Ok(text) => Ok(text),
        Err(error) => Err(Unread { kind: error.kind() }),
    }
}

/// The text of a file. It fails as [`read_text`] does, and if the file can't be opened.
pub fn read_file<R: Files>(rt: &R, alloc: Global, path: &str) -> Result<String, Unread> {
    match text_of(rt, alloc, path) {
        Ok(text) => Ok(text),
        Err(error) => Err(Unread { kind: error.kind() }),
    }
}

// The same with the error itself. If the system says how long the file is, there is room for all of
// it, and for the read that finds its end, before anything is read.
fn text_of<R: Files>(rt: &R, alloc: Global, path: &str) -> io::Result<String> {
    let mut file = fs::open(rt, path)?;
    let len = match file.metadata() {
        Ok(found) => found.len() as usize,
        Err(_) => 0,
    };
    let mut text = String::with_capacity(alloc, len.saturating_add(1))?;
    file.read_to_string(&mut text)?;
    Ok(text)
}
