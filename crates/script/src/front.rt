//! The front of a line: its first word, and the number that the word spells. All of it is small and
//! always inlined, because a result of several words would otherwise go through memory.
ghost use Rattle.std.specs.Prelude.{◌≡◌, ◌<◌, ◌-◌, ◌∷◌, [], IfNone, IfSome, length, option_map, slice_index, take, true};
ghost use Rattle.std.specs.Char.{is_ascii_digit};
ghost use Rattle.std.specs.Str.{bytes_eq};
ghost use Rattle.std.specs.List.{prefix_len, position_or_len};
ghost use Rattle.script.specs.Grammar.{u64_of, value_after, words_of};
ghost use Rattle.script.specs.Words.{IsTrimmed, behind, word_end, digit_count, ends_word, fits_word, is_one_digit, is_space, past, starts_number, word_of};

use crate::line::MOST_DIGITS;

// How many spaces are at the front.
#[inline(always)]
fn space_len(text: &[u8]) -> usize
    ensures { result ≡ prefix_len is_space text.now }
{
    let mut len = 0;
    while len < text.len() && text[len] == b' ' {
        len += 1;
    }
    len
}

// How many bytes precede the first space.
#[inline(always)]
fn word_len(text: &[u8]) -> usize
    ensures { result ≡ position_or_len is_space text.now }
{
    let mut len = 0;
    while len < text.len() && text[len] != b' ' {
        len += 1;
    }
    len
}

/// The text after the spaces at its front.
#[inline(always)]
pub(crate) fn past_spaces(text: &str) -> &str
    ensures rest { result.now ≡ past text.now }
    ensures trimmed { IsTrimmed result.now }
{
    &text[space_len(text.as_bytes())..]
}

// The same for a text that follows a word, so it is empty or begins with a space.
#[inline(always)]
fn past_word(rest: &str) -> &str
    requires { ends_word rest.now ≡ true }
    ensures rest { result.now ≡ past rest.now }
    ensures trimmed { IsTrimmed result.now }
{
    if rest.is_empty() {
        return rest;
    }
    past_spaces(&rest[1..])
}

/// The word at the front, and the text from the next word on.
#[inline(always)]
pub(crate) fn first_word(text: &str) -> (&str, &str)
    ensures word { result.0.now ≡ word_of text.now }
    ensures rest { result.1.now ≡ behind text.now }
    ensures trimmed { IsTrimmed result.1.now }
{
    let (word, rest) = text.split_at(word_len(text.as_bytes()));
    (word, past_spaces(rest))
}

/// The word at the front, if there is one, and the text from the next word on.
#[tactic(auto, using(crate::proofs::Words::words_split, crate::proofs::Words::words_none))]
pub(crate) fn next_word(text: &str) -> Option<(&str, &str)>
    requires { IsTrimmed text.now }
    ensures none { IfNone result (words_of text.now ≡ []) }
    ensures word { IfSome result (λ r. words_of text.now ≡ r.0.now ∷ words_of r.1.now) }
    ensures trimmed { IfSome result (λ r. IsTrimmed r.1.now) }
{
    if text.is_empty() {
        return None;
    }
    Some(first_word(text))
}

/// Whether the word is this one. (Inlined, so that each of the few bytes of `name` is compared with
/// a constant.)
#[inline(always)]
pub(crate) fn is_word(word: &str, name: &str) -> bool
    ensures { result ≡ bytes_eq word.now name.now }
{
    let (bytes, wanted) = (word.as_bytes(), name.as_bytes());
    if bytes.len() != wanted.len() {
        return false;
    }
    let mut place = 0;
    while place < wanted.len() {
        if bytes[place] != wanted[place] {
            return false;
        }
        place += 1;
    }
    true
}

/// The text from the second word on, if the first word is this one, and a space follows it.
#[inline(always)]
pub(crate) fn behind_word<'a>(text: &'a str, name: &str) -> Option<&'a str>
    requires { word_end name.now ≡ length name.now }
    ensures word { IfSome result (λ rest. word_of text.now ≡ name.now) }
    ensures rest { IfSome result (λ rest. rest.now ≡ behind text.now) }
    ensures trimmed { IfSome result (λ rest. IsTrimmed rest.now) }
{
    let (bytes, wanted) = (text.as_bytes(), name.as_bytes());
    if bytes.len() <= wanted.len() || bytes[wanted.len()] != b' ' {
        return None;
    }
    let mut place = 0;
    while place < wanted.len() {
        if bytes[place] != wanted[place] {
            return None;
        }
        place += 1;
    }
    Some(past_spaces(&text[wanted.len() + 1..]))
}

/// The number that the word at the front spells, if it spells one, and the text from the next word
/// on. (Most numbers are one digit followed by one space, so that case is tested first.)
#[inline(always)]
#[tactic(auto, using(crate::proofs::OneDigit::one_there, crate::proofs::OneDigit::one_digit))]
pub(crate) fn first_number(text: &str) -> Option<(u64, &str)>
    ensures number { option_map (λ r. r.0) result ≡ u64_of (word_of text.now) }
    ensures rest { IfSome result (λ r. r.1.now ≡ behind text.now) }
    ensures trimmed { IfSome result (λ r. IsTrimmed r.1.now) }
{
    let bytes = text.as_bytes();
    if is_one_digit(bytes) {
        return Some((u64::from(bytes[0] - b'0'), &text[2..]));
    }
    any_number(text)
}

// The same for any text. The digits are read once.
#[inline(always)]
fn any_number(text: &str) -> Option<(u64, &str)>
    ensures number { option_map (λ r. r.0) result ≡ u64_of (word_of text.now) }
    ensures rest { IfSome result (λ r. r.1.now ≡ behind text.now) }
    ensures trimmed { IfSome result (λ r. IsTrimmed r.1.now) }
{
    let bytes = text.as_bytes();
    let Some((number, len)) = leading_digits(bytes) else {
        return None;
    };
    if !ends_word(&bytes[len..]) {
        return None;
    }
    if !fits_word(len) {
        return None;
    }
    Some((number, past_word(&text[len..])))
}

/// The number that the word spells, if it fits.
pub(crate) fn read_u64(word: &str) -> Option<u64>
    ensures { result ≡ u64_of word.now }
{
    let digits = word.as_bytes();
    let Some((number, len)) = leading_digits(digits) else {
        return None;
    };
    if len < digits.len() {
        return None;
    }
    if !fits_word(len) {
        return None;
    }
    Some(number)
}

// The number that the digits at the front spell, if it fits, and how many digits there are. (The
// first digit always fits, and most numbers have no other.)
#[inline(always)]
#[tactic(auto, using(crate::proofs::Fronts::no_digits, crate::proofs::Fronts::spell_none, crate::proofs::Fronts::some_digit, crate::proofs::Fronts::digit_first))]
fn leading_digits(text: &[u8]) -> Option<(u64, usize)>
    ensures number { option_map (λ r. r.0) result
        ≡ value_after 0 (take (digit_count text.now) text.now) }
    ensures len { IfSome result (λ r. r.1 ≡ digit_count text.now) }
{
    if !starts_number(text) {
        return Some((0, 0));
    }
    more_digits(text, u64::from(text[0] - b'0'))
}

// Whether exactly one digit is at the front, followed by exactly one space.
#[inline(always)]
fn is_one_digit(text: &[u8]) -> bool
    ensures { result ≡ is_one_digit text.now }
{
    match text {
        [digit, space, next, ..] => digit.is_ascii_digit() && *space == b' ' && *next != b' ',
        _ => false,
    }
}

// Whether a digit is at the front.
#[inline(always)]
fn starts_number(text: &[u8]) -> bool
    ensures { result ≡ starts_number text.now }
{
    match text {
        [] => false,
        [byte, ..] => byte.is_ascii_digit(),
    }
}

// The same for a text that begins with a digit, which spells this number.
#[inline(always)]
fn more_digits(text: &[u8], first: u64) -> Option<(u64, usize)>
    requires some { 0 < length text.now }
    requires digit { is_ascii_digit (slice_index text.now 0) ≡ true }
    requires first { first ≡ slice_index text.now 0 - 48 }
    ensures number { option_map (λ r. r.0) result
        ≡ value_after 0 (take (digit_count text.now) text.now) }
    ensures len { IfSome result (λ r. r.1 ≡ digit_count text.now) }
{
    let mut number = first;
    let mut len = 1;
    while len < text.len() && text[len].is_ascii_digit() {
        number = number
            .checked_mul(10)?
            .checked_add(u64::from(text[len] - b'0'))?;
        len += 1;
    }
    Some((number, len))
}

// Whether a word ends before this text, which is then empty or begins with a space.
#[inline(always)]
fn ends_word(rest: &[u8]) -> bool
    ensures { result ≡ ends_word rest.now }
{
    match rest {
        [] => true,
        [byte, ..] => *byte == b' ',
    }
}

// Whether a number may have this many digits.
#[inline(always)]
fn fits_word(digits: usize) -> bool
    ensures { result ≡ fits_word digits }
{
    0 < digits && digits <= MOST_DIGITS
}
