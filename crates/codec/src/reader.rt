//! Reads values from the front of bytes, one after another. Errors are sticky: once a reader has
//! failed it stays so, and [`finish`](Reader::finish) reports it. So callers need not check each
//! value.
ghost use Rattle.std.specs.Prelude.{◌≡◌, ◌≤◌, length, Some, None};
ghost use Rattle.byteorder.specs.Endian.{big_number};
ghost use Rattle.codec.specs.Formats.{byte, number_at, number2, number4, number8, signed8};
ghost use Rattle.codec.specs.Formats.{run, bytes4};
ghost use Rattle.codec.specs.Readers.{left, is_open, is_whole, enough, passing, Takes, Reads};

use byteorder::{BigEndian, ByteOrder};

/// Reads values from the front of bytes, one after another. Once a value is missing or is rejected,
/// the reader has failed: what it returns from then on means nothing, and
/// [`finish`](Reader::finish) reports the failure. No call before that returns an error.
#[derive(Clone, Copy)]
pub struct Reader<'a> {
    // What is left; `None` once the reader has failed.
    rest: Option<&'a [u8]>,
}

const ZEROS: [u8; 8] = [0; 8];

impl<'a> Reader<'a> {
    /// A reader of all of the bytes.
    pub fn new(bytes: &'a [u8]) -> Reader<'a>
        ensures { left result ≡ Some bytes.now }
    {
        Reader { rest: Some(bytes) }
    }

    // The next `count` bytes, at most eight.
    fn take(&mut self, count: usize) -> &'a [u8]
        requires { count ≤ 8 }
        ensures enough { count ≤ length result.now }
        ensures value { Takes (number_at count) self.old self.new
            (Some (big_number count result.now)) }
    {
        match self.rest {
            Some(bytes) if count <= bytes.len() => {
                let (taken, rest) = bytes.split_at(count);
                self.rest = Some(rest);
                taken
            }
            _ => {
                self.rest = None;
                &ZEROS
            }
        }
    }

    /// Reads a byte.
    pub fn u8(&mut self) -> u8
        ensures { Reads byte self.old self.new result }
    {
        match self.rest {
            Some([byte, rest @ ..]) => {
                self.rest = Some(rest);
                *byte
            }
            _ => {
                self.rest = None;
                0
            }
        }
    }

    /// Reads a number in two bytes.
    #[tactic(auto, unfolding(crate::specs::Formats::number2))]
    pub fn u16(&mut self) -> u16
        ensures { Reads number2 self.old self.new result }
    {
        BigEndian::read_u16(self.take(2))
    }

    /// Reads a number in four bytes.
    #[tactic(auto, unfolding(crate::specs::Formats::number4))]
    pub fn u32(&mut self) -> u32
        ensures { Reads number4 self.old self.new result }
    {
        BigEndian::read_u32(self.take(4))
    }

    /// Reads a number in eight bytes.
    #[tactic(auto, unfolding(crate::specs::Formats::number8))]
    pub fn u64(&mut self) -> u64
        ensures { Reads number8 self.old self.new result }
    {
        BigEndian::read_u64(self.take(8))
    }

    /// Reads a number in eight bytes, in two's complement.
    #[tactic(auto, unfolding(crate::specs::Formats::signed8))]
    pub fn i64(&mut self) -> i64
        ensures { Reads signed8 self.old self.new result }
    {
        BigEndian::read_i64(self.take(8))
    }

    // The next `count` bytes.
    fn run(&mut self, count: usize) -> &'a [u8]
        ensures { Reads (run count) self.old self.new result.now }
    {
        match self.rest {
            Some(bytes) if count <= bytes.len() => {
                let (taken, rest) = bytes.split_at(count);
                self.rest = Some(rest);
                taken
            }
            _ => {
                self.rest = None;
                &[]
            }
        }
    }

    /// Reads a number in four bytes, and that many bytes. If there are fewer, the reader fails. It
    /// copies no byte.
    #[tactic(auto, unfolding(crate::specs::Formats::bytes4))]
    pub fn bytes(&mut self) -> &'a [u8]
        ensures { Reads bytes4 self.old self.new result.now }
    {
        let count = self.u32();
        self.run(count as usize)
    }

    /// Makes the reader fail unless a value that was read has passed a test.
    pub fn check(&mut self, passed: bool)
        ensures { Takes (passing passed) self.old self.new (Some tt) }
    {
        if !passed {
            self.fail();
        }
    }

    /// Makes the reader fail: what was read is not allowed there.
    pub fn fail(&mut self)
        ensures { left self.new ≡ None }
    {
        self.rest = None;
    }

    /// Makes the reader fail if fewer than `least` bytes are left.
    pub fn require(&mut self, least: usize)
        ensures { Takes (enough least) self.old self.new (Some tt) }
    {
        self.check(self.rest.is_some_and(|rest| least <= rest.len()));
    }

    /// Whether the reader hasn't failed.
    pub fn is_open(&self) -> bool
        ensures { result ≡ is_open self.now }
    {
        self.rest.is_some()
    }

    /// Whether everything that was read was there, and nothing is left.
    pub fn finish(self) -> bool
        ensures { result ≡ is_whole self.entry }
    {
        matches!(self.rest, Some([]))
    }
}
