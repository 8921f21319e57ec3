//! `Ending`, a fixed buffer that is filled from the back.
ghost use Rattle.std.specs.Prelude.{◌≡◌, ◌≤◌, ◌+◌, ◌∷◌, [], length, decimal};
ghost use Rattle.std.specs.Fmt.{signed_decimal};
ghost use Rattle.ids.specs.Texts.{optional_text, reference_text};
ghost use Rattle.script.specs.Endings.{Grows, held};
ghost use Rattle.script.specs.declared.ending.TheConstants.{ROOM};

use ids::Ref;
use itoa::write_digits;

/// The size of the buffer in bytes: the longest answer fits, with some to spare.
pub(crate) const ROOM: usize = 192;

/// The end of a text, which grows at its front. So the digits of a number are written straight into
/// place, and the text so far is always one slice.
#[derive(Clone, Copy)]
pub(crate) struct Ending {
    bytes: [u8; ROOM],
    // The place at which the text begins.
    start: usize,
}

impl Ending {
    /// An empty text.
    pub(crate) fn new() -> Ending
        ensures empty { held result ≡ [] }
        ensures room { result.start ≡ ROOM }
    {
        Ending {
            bytes: [0; ROOM],
            start: ROOM,
        }
    }

    /// Makes the text empty again.
    #[inline(always)]
    pub(crate) fn clear(&mut self)
        ensures empty { held self.new ≡ [] }
        ensures room { self.new.start ≡ ROOM }
    {
        self.start = ROOM;
    }

    /// The text so far.
    pub(crate) fn as_bytes(&self) -> &[u8]
        requires { self.now.start ≤ ROOM }
        ensures { result.now ≡ held self.now }
    {
        &self.bytes[self.start..]
    }

    /// Puts a byte before it.
    pub(crate) fn put_byte(&mut self, byte: u8)
        requires { (1 ≤ self.old.start) × (self.old.start ≤ ROOM) }
        ensures grows { Grows (byte ∷ []) self.old self.new }
        ensures room { self.old.start ≡ self.new.start + 1 }
    {
        self.start -= 1;
        self.bytes[self.start] = byte;
    }

    /// Puts bytes before it.
    pub(crate) fn put(&mut self, part: &[u8])
        requires { (length part.now ≤ self.old.start) × (self.old.start ≤ ROOM) }
        ensures grows { Grows part.now self.old self.new }
        ensures room { self.old.start ≡ self.new.start + length part.now }
    {
        let end = self.start;
        let start = end - part.len();
        self.bytes[start..end].copy_from_slice(part);
        self.start = start;
    }

    /// Puts a number before it.
    pub(crate) fn put_number(&mut self, number: u64)
        requires { (20 ≤ self.old.start) × (self.old.start ≤ ROOM) }
        ensures grows { Grows (decimal number) self.old self.new }
        ensures room { (self.new.start ≤ self.old.start)
            × (self.old.start ≤ self.new.start + 20) }
    {
        self.start = write_digits(number, &mut self.bytes, self.start);
    }

    /// Puts a signed number before it, with a minus sign if it is negative.
    pub(crate) fn put_signed(&mut self, number: i64)
        requires { (21 ≤ self.old.start) × (self.old.start ≤ ROOM) }
        ensures grows { Grows (signed_decimal number) self.old self.new }
        ensures room { (self.new.start ≤ self.old.start)
            × (self.old.start ≤ self.new.start + 21) }
    {
        self.put_number(number.unsigned_abs());
        if number < 0 {
            self.put_byte(b'-');
        }
    }

    /// Puts a reference before it.
    #[inline(always)]
    #[tactic(auto, using(crate::proofs::Endings::both))]
    pub(crate) fn put_reference(&mut self, reference: Ref)
        requires { (62 ≤ self.old.start) × (self.old.start ≤ ROOM) }
        ensures grows { Grows (reference_text reference) self.old self.new }
        ensures room { (self.new.start ≤ self.old.start)
            × (self.old.start ≤ self.new.start + 62) }
    {
        self.put_number(u64::from(reference.generation));
        self.put_byte(b'.');
        self.put_number(u64::from(reference.slot));
        self.put_byte(b'.');
        self.put_number(u64::from(reference.node));
    }

    /// Puts a reference before it, or a dash for `None`.
    #[inline(always)]
    pub(crate) fn put_optional(&mut self, reference: Option<Ref>)
        requires { (62 ≤ self.old.start) × (self.old.start ≤ ROOM) }
        ensures grows { Grows (optional_text reference) self.old self.new }
        ensures room { (self.new.start ≤ self.old.start)
            × (self.old.start ≤ self.new.start + 62) }
    {
        match reference {
            Some(reference) => self.put_reference(reference),
            None => self.put_byte(b'-'),
        }
    }
}
