//! A short buffer for bytes that are put together before they are written.
ghost use Rattle.std.specs.Prelude.{◌≡◌, ◌+◌, ◌≤◌, ◌++◌, [], length};
ghost use Rattle.codec.specs.Formats.{byte, number2, number4, number8, signed8};
ghost use Rattle.codec.specs.Pieces.{Adds};
ghost use Rattle.codec.specs.declared.piece.TheConstants.{GREATEST_PIECE};

use std::marker::Model;

/// The greatest number of bytes in a piece.
pub const GREATEST_PIECE: usize = 112;

/// A short buffer for bytes that are put together before they are written, at most
/// [`GREATEST_PIECE`] of them. It allocates nothing, so no call fails.
#[derive(Drop)]
pub struct Piece {
    bytes: [u8; GREATEST_PIECE],
    len: usize,
}

impl Model for Piece {
    ghost use Rattle.std.specs.Prelude.{List, ℕ, take, ◌≤◌};

    ghost Value = { List ℕ };

    ghost view = { λ p. take p.len p.bytes };

    ghost invariant = { λ p. p.len ≤ 112 };
}

impl Piece {
    /// A piece without bytes.
    #[inline(always)]
    pub fn new() -> Piece
        ensures { result ≡ [] }
    {
        Piece {
            bytes: [0; GREATEST_PIECE],
            len: 0,
        }
    }

    /// The bytes.
    #[inline(always)]
    pub fn as_slice(&self) -> &[u8]
        ensures { result.now ≡ self.now }
    {
        &self.bytes[..self.len]
    }

    /// Appends these bytes. The piece must have room for them.
    #[inline(always)]
    pub fn append(&mut self, part: &[u8])
        requires { length self.old + length part.now ≤ GREATEST_PIECE }
        ensures { self.new ≡ self.old ++ part.now }
    {
        let end = self.len + part.len();
        self.bytes[self.len..end].copy_from_slice(part);
        self.len = end;
    }

    /// Appends a byte.
    #[inline(always)]
    pub fn u8(&mut self, number: u8)
        requires { length self.old + 1 ≤ GREATEST_PIECE }
        ensures { Adds byte 1 self.old self.new number }
    {
        self.append(&[number]);
    }

    /// Appends a number in two bytes.
    #[tactic(auto, unfolding(crate::specs::Formats::number2))]
    #[inline(always)]
    pub fn u16(&mut self, number: u16)
        requires { length self.old + 2 ≤ GREATEST_PIECE }
        ensures { Adds number2 2 self.old self.new number }
    {
        self.append(&number.to_be_bytes());
    }

    /// Appends a number in four bytes.
    #[tactic(auto, unfolding(crate::specs::Formats::number4))]
    #[inline(always)]
    pub fn u32(&mut self, number: u32)
        requires { length self.old + 4 ≤ GREATEST_PIECE }
        ensures { Adds number4 4 self.old self.new number }
    {
        self.append(&number.to_be_bytes());
    }

    /// Appends a number in eight bytes.
    #[tactic(auto, unfolding(crate::specs::Formats::number8))]
    #[inline(always)]
    pub fn u64(&mut self, number: u64)
        requires { length self.old + 8 ≤ GREATEST_PIECE }
        ensures { Adds number8 8 self.old self.new number }
    {
        self.append(&number.to_be_bytes());
    }

    /// Appends a number in eight bytes, in two's complement.
    #[tactic(auto, unfolding(crate::specs::Formats::signed8))]
    #[inline(always)]
    pub fn i64(&mut self, number: i64)
        requires { length self.old + 8 ≤ GREATEST_PIECE }
        ensures { Adds signed8 8 self.old self.new number }
    {
        self.append(&number.to_be_bytes());
    }
}
