//! What a disk in memory records of itself and, for proofs, the states that it had. It knows the
//! range of each write since the last sync, which is what a crash may fill with any bytes.
ghost use Rattle.std.specs.Prelude.{◌≡◌, ◌≤◌, ◌+◌, ◌↔◌, [], length, take, vec_capacity, IfOk, OnOk, OnErr};
ghost use Rattle.disk.specs.Areas.{Areas, Changes, Reads, Torn, part, with_part, pasted};
ghost use Rattle.disk.specs.Crashes.{Follows, Reaches};
ghost use Rattle.disk.specs.Record.{moments, IsThen};

use crate::Area;
use std::alloc::{AllocError, Global};
use std::mem;
use std::snapshot::Snapshot;

/// The bytes that the areas hold.
#[derive(Drop)]
pub struct Contents {
    pub(crate) select: Vec<u8>,
    pub(crate) a: Vec<u8>,
    pub(crate) b: Vec<u8>,
}

/// Bytes of one area that may be anything after a crash.
#[derive(Drop)]
pub struct Range {
    pub(crate) area: Area,
    pub(crate) at: usize,
    pub(crate) len: usize,
    // What the disk held before they were written. Only proofs read it: it takes no bytes.
    pub(crate) before: Snapshot<Contents>,
}

/// What a disk holds now, and the ranges that were written since the last sync, which discards
/// them.
#[derive(Drop)]
pub struct State {
    pub(crate) held: Contents,
    // What the disk held at the last sync. Only proofs read it: it takes no bytes.
    pub(crate) settled: Snapshot<Contents>,
    pub(crate) ranges: Vec<Range>,
}

/// The states of the past moments. Only proofs read it: a snapshot of it takes no bytes.
#[derive(Drop)]
pub enum Past {
    Start,
    Then {
        before: Snapshot<Past>,
        state: Snapshot<State>,
    },
}

impl Contents {
    ghost use Rattle.disk.specs.Record.{areas_of, filled_in, room};

    pub(crate) fn new(alloc: Global) -> Contents
        ensures select { result.select.items ≡ [] }
        ensures a { result.a.items ≡ [] }
        ensures b { result.b.items ≡ [] }
    {
        Contents {
            select: Vec::new(alloc),
            a: Vec::new(alloc),
            b: Vec::new(alloc),
        }
    }

    pub(crate) fn copied(&self, alloc: Global) -> Result<Contents, AllocError>
        ensures { IfOk result (λ c. areas_of c ≡ areas_of self.now) }
    {
        Ok(Contents {
            select: self.select.to_vec(alloc)?,
            a: self.a.to_vec(alloc)?,
            b: self.b.to_vec(alloc)?,
        })
    }

    pub(crate) fn part(&self, area: Area) -> &[u8]
        ensures { result.now ≡ part area (areas_of self.now) }
    {
        match area {
            Area::Select => &self.select,
            Area::A => &self.a,
            Area::B => &self.b,
        }
    }

    /// Copies the bytes of an area from the offset `at` on to the front of `into`, as many as both
    /// allow, and returns how many.
    pub(crate) fn read(&self, area: Area, at: usize, into: &mut [u8]) -> usize
        ensures { Reads (part area (areas_of self.now)) at result into.old into.new }
    {
        copy_out(self.part(area), at, into)
    }

    /// Replaces the bytes of an area.
    pub(crate) fn set(&mut self, area: Area, next: Vec<u8>)
        ensures { areas_of self.new ≡ with_part area next.items (areas_of self.old) }
    {
        match area {
            Area::Select => self.select = next,
            Area::A => self.a = next,
            Area::B => self.b = next,
        }
    }

    /// Makes room for this many bytes at this offset, so that [`write`](Contents::write) can't
    /// fail.
    pub(crate) fn reserve(&mut self, area: Area, at: usize, len: usize) -> Result<(), AllocError>
        requires { at ≤ length (part area (areas_of self.old)) }

        ensures held { areas_of self.new ≡ areas_of self.old }
        ensures room { OnOk result (at + len ≤ room area self.new) }
    {
        match area {
            Area::Select => reserve(&mut self.select, at, len),
            Area::A => reserve(&mut self.a, at, len),
            Area::B => reserve(&mut self.b, at, len),
        }
    }

    /// Writes these bytes over those of an area from an offset on, in place.
    pub(crate) fn write(&mut self, area: Area, at: usize, bytes: &[u8])
        requires within { at ≤ length (part area (areas_of self.old)) }
        requires room { at + length bytes.now ≤ room area self.old }

        ensures { areas_of self.new
            ≡ with_part area (pasted at bytes.now (part area (areas_of self.old)))
            (areas_of self.old) }
    {
        match area {
            Area::Select => paste(&mut self.select, at, bytes),
            Area::A => paste(&mut self.a, at, bytes),
            Area::B => paste(&mut self.b, at, bytes),
        }
    }

    /// Makes an area this long, if it is longer.
    pub(crate) fn cut(&mut self, area: Area, len: usize)
        ensures { areas_of self.new
            ≡ with_part area (take len (part area (areas_of self.old))) (areas_of self.old) }
    {
        match area {
            Area::Select => self.select.truncate(len),
            Area::A => self.a.truncate(len),
            Area::B => self.b.truncate(len),
        }
    }

    /// Sets each byte of a range to this one.
    pub(crate) fn fill(&mut self, alloc: Global, range: &Range, fill: u8) -> Result<(), AllocError>
        ensures { OnOk result (areas_of self.new ≡ filled_in fill range.now (areas_of self.old)) }
    {
        if range.at > self.part(range.area).len() {
            return Ok(());
        }
        let bytes = vec![in alloc; fill; range.len]?;
        self.reserve(range.area, range.at, range.len)?;
        self.write(range.area, range.at, &bytes);
        Ok(())
    }
}

impl State {
    ghost use Rattle.disk.specs.Record.{areas_of, filled, Risks, room, synced};

    /// A disk that holds this, all of it synced.
    pub(crate) fn new(alloc: Global, held: Contents) -> State
        ensures held { result.held ≡ held }
        ensures synced { synced result ≡ areas_of held }
        ensures ranges { result.ranges.items ≡ [] }
    {
        let settled = Snapshot::of(&held);
        State {
            held,
            settled,
            ranges: Vec::new(alloc),
        }
    }

    /// What a crash leaves if each byte that was written since the last sync became `fill`; `last`
    /// is what the disk held then.
    pub(crate) fn filled(
        &self,
        alloc: Global,
        last: Contents,
        fill: u8,
    ) -> Result<Contents, AllocError>
        requires { areas_of last ≡ synced self.now }

        ensures { IfOk result (λ c. areas_of c ≡ filled fill self.now) }
    {
        let mut left = last;
        for range in &self.ranges {
            left.fill(alloc, range, fill)?;
        }
        Ok(left)
    }

    /// Makes room for this many bytes at this offset, so that [`write`](State::write) can't fail.
    pub(crate) fn reserve(&mut self, area: Area, at: usize, len: usize) -> Result<(), AllocError>
        requires { at ≤ length (part area (areas_of self.old.held)) }

        ensures held { areas_of self.new.held ≡ areas_of self.old.held }
        ensures synced { synced self.new ≡ synced self.old }
        ensures ranges { self.new.ranges ≡ self.old.ranges }
        ensures room { OnOk result (at + len ≤ room area self.new.held) }
    {
        self.held.reserve(area, at, len)
    }

    /// From now on a crash may leave any bytes in this range. A failure changes nothing.
    pub(crate) fn note(&mut self, area: Area, at: usize, len: usize) -> Result<(), AllocError>
        ensures held { self.new.held ≡ self.old.held }
        ensures synced { synced self.new ≡ synced self.old }
        ensures risks { Risks area at len self.old self.new result }
    {
        let before = Snapshot::of(&self.held);
        self.ranges.push(Range {
            area,
            at,
            len,
            before,
        })?;
        Ok(())
    }

    /// Writes these bytes over those of an area from an offset on, in place.
    pub(crate) fn write(&mut self, area: Area, at: usize, bytes: &[u8])
        requires within { at ≤ length (part area (areas_of self.old.held)) }
        requires room { at + length bytes.now ≤ room area self.old.held }

        ensures held { areas_of self.new.held
            ≡ with_part area (pasted at bytes.now (part area (areas_of self.old.held)))
            (areas_of self.old.held) }
        ensures synced { synced self.new ≡ synced self.old }
        ensures ranges { self.new.ranges ≡ self.old.ranges }
    {
        self.held.write(area, at, bytes);
    }

    /// Replaces the bytes of an area.
    pub(crate) fn set(&mut self, area: Area, next: Vec<u8>)
        ensures held { areas_of self.new.held ≡ with_part area next.items (areas_of self.old.held) }
        ensures synced { synced self.new ≡ synced self.old }
        ensures ranges { self.new.ranges ≡ self.old.ranges }
    {
        self.held.set(area, next);
    }

    /// Everything that the disk holds is synced.
    pub(crate) fn settle(&mut self)
        ensures held { self.new.held ≡ self.old.held }
        ensures synced { synced self.new ≡ areas_of self.old.held }
        ensures ranges { self.new.ranges.items ≡ [] }
    {
        self.settled = Snapshot::of(&self.held);
        self.ranges.clear();
    }
}

// Copies the bytes of `held` from the offset `at` on to the front of `into`, as many as both allow,
// and returns how many.
fn copy_out(held: &[u8], at: usize, into: &mut [u8]) -> usize
    ensures { Reads held.now at result into.old into.new }
{
    let rest = if at < held.len() { &held[at..] } else { &[] };
    let n = rest.len().min(into.len());
    into[..n].copy_from_slice(&rest[..n]);
    n
}

// Makes room for this many bytes from an offset on.
fn reserve(held: &mut Vec<u8>, at: usize, len: usize) -> Result<(), AllocError>
    requires { at ≤ length held.old.items }

    ensures held { held.new.items ≡ held.old.items }
    ensures room { OnOk result (at + len ≤ vec_capacity held.new) }
{
    held.reserve(len.saturating_sub(held.len() - at))
}

/// Writes these bytes over others from an offset on.
pub(crate) fn paste(held: &mut Vec<u8>, at: usize, bytes: &[u8])
    requires within { at ≤ length held.old.items }
    requires room { at + length bytes.now ≤ vec_capacity held.old }

    ensures { held.new.items ≡ pasted at bytes.now held.old.items }
{
    let over = bytes.len().min(held.len() - at);
    held[at..at + over].copy_from_slice(&bytes[..over]);
    match held.extend_from_slice(&bytes[over..]) {
        Ok(()) => {}
        Err(_) => unreachable!(),
    }
}

pub(crate) fn start() -> Snapshot<Past>
    ensures { moments result.value ≡ 0 }
{
    Snapshot::of(&Past::Start)
}

/// One more moment has passed.
pub(crate) fn tick(past: &mut Snapshot<Past>, state: &State)
    ensures { IsThen past.old.value state.now past.new.value }
{
    let before = mem::replace(past, Snapshot::of(&Past::Start));
    *past = Snapshot::of(&Past::Then {
        before,
        state: Snapshot::of(state),
    });
}
