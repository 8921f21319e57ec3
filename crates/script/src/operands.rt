//! The operands of a line: the numbers after its verb, three at most.
ghost use Rattle.std.specs.Prelude.{◌≡◌, decimal};
ghost use Rattle.script.specs.Grammar.{u8_of, u16_of, u32_of, words_of};
ghost use Rattle.script.specs.Operands.{operands_of};
ghost use Rattle.script.specs.Words.{IsTrimmed};

use crate::front::first_number;

/// The operands after a verb.
#[derive(Clone, Copy)]
pub(crate) enum Operands {
    Zero,
    One(u64),
    Two(u64, u64),
    Three(u64, u64, u64),
}

impl Operands {
    /// The numbers that the words of the text spell. `None` if a word isn't a number, or if there
    /// are more than three. (Inlined, so that the caller's match on the result is merged with the
    /// tests here.)
    #[inline(always)]
    pub(crate) fn read(text: &str) -> Option<Operands>
        requires { IsTrimmed text.now }
        ensures { result ≡ operands_of (words_of text.now) }
    {
        if text.is_empty() {
            return Some(Operands::Zero);
        }
        let Some((a, text)) = first_number(text) else {
            return None;
        };
        if text.is_empty() {
            return Some(Operands::One(a));
        }
        let Some((b, text)) = first_number(text) else {
            return None;
        };
        if text.is_empty() {
            return Some(Operands::Two(a, b));
        }
        let Some((c, text)) = first_number(text) else {
            return None;
        };
        if text.is_empty() {
            return Some(Operands::Three(a, b, c));
        }
        None
    }
}

/// The number, if it fits.
#[inline(always)]
#[tactic(auto, using(crate::proofs::Spelling::u8_of_decimal))]
pub(crate) fn to_u8(number: u64) -> Option<u8>
    ensures { result ≡ u8_of (decimal number) }
{
    u8::try_from(number).ok()
}

/// The number, if it fits.
#[inline(always)]
#[tactic(auto, using(crate::proofs::Spelling::u16_of_decimal))]
pub(crate) fn to_u16(number: u64) -> Option<u16>
    ensures { result ≡ u16_of (decimal number) }
{
    u16::try_from(number).ok()
}

/// The number, if it fits.
#[inline(always)]
#[tactic(auto, using(crate::proofs::Spelling::u32_of_decimal))]
pub(crate) fn to_u32(number: u64) -> Option<u32>
    ensures { result ≡ u32_of (decimal number) }
{
    u32::try_from(number).ok()
}
