//! The first line of a text. Most lines end soon, so the next few bytes are searched together
//! before the rest.
ghost use Rattle.std.specs.Prelude.{◌≡◌, ◌<◌, ◌∷◌, length};
ghost use Rattle.std.specs.Str.Lines.{lines, strip_carriage_return};
ghost use Rattle.memchr.specs.Find.{IsFirstByte, is_byte};

use memchr::{memchr, memchr2};

// How many bytes are searched first.
const NEAR: usize = 32;

/// The first line of a text, without its line ending, and the text after it. A line ends with a
/// newline, or with a carriage return and a newline; the last line may end with the text.
#[inline(always)]
pub(crate) fn first_line(text: &str) -> (&str, &str)
    requires { 0 < length text.now }
    ensures line { lines text.now ≡ result.0.now ∷ lines result.1.now }
    ensures less { length result.1.now < length text.now }
{
    match line_end(text.as_bytes()) {
        Some(end) => (without_return(&text[..end]), &text[end + 1..]),
        None => (text, ""),
    }
}

/// The same for other crates. (It searches as [`far_line_end`] does, and takes longer.)
pub fn next_line(text: &str) -> (&str, &str)
    requires { 0 < length text.now }
    ensures line { lines text.now ≡ result.0.now ∷ lines result.1.now }
    ensures less { length result.1.now < length text.now }
{
    match far_line_end(text.as_bytes()) {
        Some(end) => (without_return(&text[..end]), &text[end + 1..]),
        None => (text, ""),
    }
}

/// The place of the first newline.
#[inline(always)]
fn line_end(text: &[u8]) -> Option<usize>
    ensures { IsFirstByte (is_byte 10) text.now result }
{
    match memchr(b'\n', &text[..text.len().min(NEAR)]) {
        Some(end) => Some(end),
        None => far_line_end(text),
    }
}

/// The same for a long line. (It searches for either of two equal bytes, so that `memchr` itself is
/// called in one place only, and is inlined there.)
#[inline(never)]
#[tactic(auto, using(crate::proofs::FirstLines::first_of_two))]
fn far_line_end(text: &[u8]) -> Option<usize>
    ensures { IsFirstByte (is_byte 10) text.now result }
{
    memchr2(b'\n', b'\n', text)
}

/// The text without the carriage return at its end, if it ends with one.
#[inline(always)]
fn without_return(text: &str) -> &str
    ensures { result.now ≡ strip_carriage_return text.now }
{
    let len = text.len();
    if 0 < len && text.as_bytes()[len - 1] == b'\r' {
        &text[..len - 1]
    } else {
        text
    }
}
