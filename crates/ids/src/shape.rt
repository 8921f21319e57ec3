//! How large a space is. Every [`Shape`] is within the limits by construction, so nothing tests it
//! again.
ghost use Rattle.std.specs.Prelude.{◌≡◌, IsSome, IfSome, ◌↔◌};
ghost use Rattle.ids.specs.Limits.{Shaped, IsShape, plain_shape, wide_shape};

use crate::limits::{
    GREATEST_BYTES, GREATEST_NODES, GREATEST_REGISTERS, GREATEST_SLOTS, LEAST_NODES, PLAIN_PLACES,
    PLAIN_REGISTERS, PLAIN_SLOTS,
};
use std::marker::Model;

/// How large a space is: its nodes, the registers and slots of each, and the places and bytes that
/// an object may have. It is fixed for the life of the space, and always within the limits of its
/// kind.
///
/// A space is *plain* or *wide*. Wide spaces may have more registers, slots and places, their
/// objects may have bytes, and their nodes are saved in a version of images of their own.
#[derive(Clone, Copy, Debug, PartialEq, Eq)]
pub struct Shape {
    nodes: u8,
    places: u8,
    registers: u16,
    slots: u32,
    bytes: u32,
    wide: bool,
}

impl Model for Shape {
    ghost Value = { Shaped };

    ghost view = { λ s. record {
      nodes = s.nodes;
      registers = s.registers;
      slots = s.slots;
      places = s.places;
      bytes = s.bytes;
      wide = s.wide;
    } };

    ghost invariant = { λ s. IsShape (record {
      nodes = s.nodes;
      registers = s.registers;
      slots = s.slots;
      places = s.places;
      bytes = s.bytes;
      wide = s.wide;
    }) };

    ghost inverse = { λ s. record {
      nodes = s.nodes;
      places = s.places;
      registers = s.registers;
      slots = s.slots;
      bytes = s.bytes;
      wide = s.wide;
    } };
}

impl Shape {
    /// The shape of a plain space with these sizes, if there are [`LEAST_NODES`] to
    /// [`GREATEST_NODES`] nodes, 1 to [`PLAIN_REGISTERS`] registers and 1 to [`PLAIN_SLOTS`] slots.
    /// Its objects have at most [`PLAIN_PLACES`] places.
    pub fn new(nodes: u8, registers: u16, slots: u32) -> Option<Shape>
        ensures within { IsSome result ↔ IsShape (plain_shape nodes registers slots) }
        ensures value { IfSome result (λ s. s ≡ plain_shape nodes registers slots) }
    {
        let nodes_fit = LEAST_NODES <= nodes && nodes <= GREATEST_NODES;
        let registers_fit = 1 <= registers && registers <= PLAIN_REGISTERS;
        let slots_fit = 1 <= slots && slots <= PLAIN_SLOTS;
        if nodes_fit && registers_fit && slots_fit {
            Some(Shape {
                nodes,
                places: PLAIN_PLACES,
                registers,
                slots,
                bytes: 0,
                wide: false,
            })
        } else {
            None
        }
    }

    /// The shape of a wide space with these sizes, if there are [`LEAST_NODES`] to
    /// [`GREATEST_NODES`] nodes, 1 to [`GREATEST_REGISTERS`] registers and 1 to [`GREATEST_SLOTS`]
    /// slots. Its objects have at most this many places, 0 to
    /// [`GREATEST_PLACES`](crate::GREATEST_PLACES), and bytes, 0 to [`GREATEST_BYTES`].
    pub fn wide(nodes: u8, registers: u16, slots: u32, places: u8, bytes: u32) -> Option<Shape>
        ensures within { IsSome result ↔ IsShape (wide_shape nodes registers slots places bytes) }
        ensures value { IfSome result (λ s. s ≡ wide_shape nodes registers slots places bytes) }
    {
        let nodes_fit = LEAST_NODES <= nodes && nodes <= GREATEST_NODES;
        let registers_fit = 1 <= registers && registers <= GREATEST_REGISTERS;
        let slots_fit = 1 <= slots && slots <= GREATEST_SLOTS;
        if nodes_fit && registers_fit && slots_fit && bytes <= GREATEST_BYTES {
            Some(Shape {
                nodes,
                places,
                registers,
                slots,
                bytes,
                wide: true,
            })
        } else {
            None
        }
    }

    /// The number of nodes of the space.
    pub fn nodes(&self) -> u8
        ensures value { result ≡ self.now.nodes }
        ensures within { IsShape self.now }
    {
        self.nodes
    }

    /// The number of registers of each node.
    pub fn registers(&self) -> u16
        ensures value { result ≡ self.now.registers }
        ensures within { IsShape self.now }
    {
        self.registers
    }

    /// The number of slots of each node.
    pub fn slots(&self) -> u32
        ensures value { result ≡ self.now.slots }
        ensures within { IsShape self.now }
    {
        self.slots
    }

    /// How many places an object has at most.
    pub fn places(&self) -> u8
        ensures value { result ≡ self.now.places }
        ensures within { IsShape self.now }
    {
        self.places
    }

    /// How many bytes an object has at most; 0 in a plain space.
    pub fn bytes(&self) -> u32
        ensures value { result ≡ self.now.bytes }
        ensures within { IsShape self.now }
    {
        self.bytes
    }

    /// Whether the space is wide.
    pub fn is_wide(&self) -> bool
        ensures value { result ≡ self.now.wide }
        ensures within { IsShape self.now }
    {
        self.wide
    }
}
