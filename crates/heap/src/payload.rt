//! What a program put into an object besides its word: its places and its bytes. One or two places
//! are in the object itself; more have memory of their own, and so have all places of an object
//! with bytes. Most objects of a program are small and have no bytes (pairs, list cells, boxes), so
//! an allocation is spared for each, and a load follows one pointer less.
//!
//! Whether the object is shared, and its age, are kept here too, since they take no memory beside
//! the variant.
ghost use Rattle.std.specs.Prelude.{◌≡◌, ◌<◌, ◌^◌, true, [], length, nat_lt, slice_set};
ghost use Rattle.std.specs.Prelude.{OnOk, OnErr, IfOk, IfErr};
ghost use Rattle.ids.specs.declared.refusal.Refusal.TheVariants.{Memory};
ghost use Rattle.model.specs.Heaps.{overwritten};
ghost use Rattle.heap.specs.Payload.{held_in, bytes_in, status_in, all_empty};

use ids::{Ref, Refusal};
use model::Age;
use std::alloc::Global;

/// Whether an object is shared, and its age.
#[derive(Clone, Copy)]
pub(crate) struct Status {
    pub(crate) shared: bool,
    pub(crate) age: Age,
}

/// What the places of an object hold, in order, its bytes, and its status.
#[derive(Drop)]
pub(crate) enum Payload {
    One {
        status: Status,
        held: [Option<Ref>; 1],
    },
    Two {
        status: Status,
        held: [Option<Ref>; 2],
    },
    Any {
        status: Status,
        held: Vec<Option<Ref>>,
        bytes: Vec<u8>,
    },
}

// An object is no larger than two places make it.
const _: () = prove!(size_of::<Payload>() == 8 + 2 * size_of::<Option<Ref>>());

impl Payload {
    /// This many empty places, and no bytes.
    pub(crate) fn empty(alloc: Global, status: Status, count: u8) -> Result<Payload, Refusal>
        ensures made { IfOk result (λ p. held_in p ≡ all_empty count) }
        ensures bytes { IfOk result (λ p. bytes_in p ≡ []) }
        ensures status { IfOk result (λ p. status_in p ≡ status) }
        ensures refused { IfErr result (λ e. e ≡ Memory) }
    {
        match count {
            1 => Ok(Payload::One {
                status,
                held: [None],
            }),
            2 => Ok(Payload::Two {
                status,
                held: [None, None],
            }),
            _ => Ok(Payload::Any {
                status,
                held: vec![in alloc; None; count as usize]?,
                bytes: Vec::new(alloc),
            }),
        }
    }

    /// Places that hold these, and these bytes.
    #[inline(always)]
    pub(crate) fn of(status: Status, held: Vec<Option<Ref>>, bytes: Vec<u8>) -> Payload
        ensures held { held_in result ≡ held.items }
        ensures bytes { bytes_in result ≡ bytes.items }
        ensures status { status_in result ≡ status }
    {
        if !bytes.is_empty() {
            return Payload::Any {
                status,
                held,
                bytes,
            };
        }
        match held.as_slice() {
            [one] => Payload::One {
                status,
                held: [*one],
            },
            [one, two] => Payload::Two {
                status,
                held: [*one, *two],
            },
            _ => Payload::Any {
                status,
                held,
                bytes,
            },
        }
    }

    /// The object's status.
    pub(crate) fn status(&self) -> Status
        ensures { result ≡ status_in self.now }
    {
        match self {
            Payload::One { status, .. } => *status,
            Payload::Two { status, .. } => *status,
            Payload::Any { status, .. } => *status,
        }
    }

    /// The object becomes shared.
    pub(crate) fn share(&mut self)
        ensures done { status_in self.new ≡ record (status_in self.old) { shared = true } }
        ensures places { held_in self.new ≡ held_in self.old }
        ensures bytes { bytes_in self.new ≡ bytes_in self.old }
    {
        match self {
            Payload::One { status, .. } => status.shared = true,
            Payload::Two { status, .. } => status.shared = true,
            Payload::Any { status, .. } => status.shared = true,
        }
    }

    /// The object gets this age.
    pub(crate) fn set_age(&mut self, age: Age)
        ensures done { status_in self.new ≡ record (status_in self.old) { age = age } }
        ensures places { held_in self.new ≡ held_in self.old }
        ensures bytes { bytes_in self.new ≡ bytes_in self.old }
    {
        match self {
            Payload::One { status, .. } => status.age = age,
            Payload::Two { status, .. } => status.age = age,
            Payload::Any { status, .. } => status.age = age,
        }
    }

    /// What the places hold.
    pub(crate) fn places(&self) -> &[Option<Ref>]
        ensures { result.now ≡ held_in self.now }
    {
        match self {
            Payload::One { held, .. } => held,
            Payload::Two { held, .. } => held,
            Payload::Any { held, .. } => held,
        }
    }

    /// The bytes.
    pub(crate) fn bytes(&self) -> &[u8]
        ensures { result.now ≡ bytes_in self.now }
    {
        match self {
            Payload::Any { bytes, .. } => bytes,
            _ => &[],
        }
    }

    /// Sets a place, and returns whether it is there.
    #[inline(always)]
    pub(crate) fn set_place(&mut self, place: u8, value: Option<Ref>) -> bool
        ensures done { held_in self.new ≡ slice_set (held_in self.old) place value }
        ensures bytes { bytes_in self.new ≡ bytes_in self.old }
        ensures status { status_in self.new ≡ status_in self.old }
        ensures there { result ≡ nat_lt place (length (held_in self.old)) }
    {
        match self {
            Payload::One { held, .. } => set(held, place, value),
            Payload::Two { held, .. } => set(held, place, value),
            Payload::Any { held, .. } => set(held, place, value),
        }
    }

    /// Replaces the bytes. It fails with [`Refusal::Memory`] if there is no memory for them, and
    /// nothing has changed then.
    pub(crate) fn set_bytes(&mut self, alloc: Global, bytes: &[u8]) -> Result<(), Refusal>
        ensures done { OnOk result (bytes_in self.new ≡ bytes.now) }
        ensures places { held_in self.new ≡ held_in self.old }
        ensures status { status_in self.new ≡ status_in self.old }
        ensures refused { IfErr result (λ e. e ≡ Memory) }
        ensures unchanged { OnErr result (bytes_in self.new ≡ bytes_in self.old) }
    {
        if let Payload::Any { bytes: old, .. } = self {
            return replace(old, bytes);
        }
        if bytes.is_empty() {
            return Ok(());
        }
        let status = self.status();
        let held = Vec::from_slice(alloc, self.places())?;
        let bytes = Vec::from_slice(alloc, bytes)?;
        *self = Payload::Any {
            status,
            held,
            bytes,
        };
        Ok(())
    }

    /// Overwrites bytes from this offset on. If there are fewer, nothing changes.
    pub(crate) fn patch(&mut self, offset: u32, bytes: &[u8])
        ensures done { bytes_in self.new ≡ overwritten (bytes_in self.old) offset bytes.now }
        ensures places { held_in self.new ≡ held_in self.old }
        ensures status { status_in self.new ≡ status_in self.old }
    {
        if let Payload::Any { bytes: old, .. } = self {
            overwrite(old, offset as usize, bytes);
        }
    }
}

fn set(held: &mut [Option<Ref>], place: u8, value: Option<Ref>) -> bool
    ensures done { held.new ≡ slice_set held.old place value }
    ensures there { result ≡ nat_lt place (length held.old) }
{
    let is_there = (place as usize) < held.len();
    if is_there {
        held[place as usize] = value;
    }
    is_there
}

// Replaces the bytes. They stay in the same memory if that is neither too small nor more than four
// times too large; so a short value doesn't keep the memory of a long one.
fn replace(old: &mut Vec<u8>, bytes: &[u8]) -> Result<(), Refusal>
    ensures done { OnOk result (old.new.items ≡ bytes.now) }
    ensures refused { IfErr result (λ e. e ≡ Memory) }
    ensures unchanged { OnErr result (old.new.items ≡ old.old.items) }
{
    let room = old.capacity();
    if bytes.len() <= room && room / 4 <= bytes.len() {
        old.clear();
        let _ = old.extend_from_slice(bytes);
        return Ok(());
    }
    *old = Vec::from_slice(*old.allocator(), bytes)?;
    Ok(())
}

// Overwrites the elements from this offset on. If there are fewer, nothing changes.
fn overwrite(old: &mut [u8], offset: usize, bytes: &[u8])
    requires { offset < 2 ^ 32 }
    ensures { old.new ≡ overwritten old.old offset bytes.now }
{
    let end = offset + bytes.len();
    if end <= old.len() {
        old[offset..end].copy_from_slice(bytes);
    }
}
