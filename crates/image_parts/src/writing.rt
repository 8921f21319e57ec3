//! Writes the parts of an image as bytes. They follow one another without gaps, each in its own
//! format.
ghost use Rattle.std.specs.Prelude.{◌≡◌, ◌≤◌, ◌+◌, ℕ, Bool, false, [], length, map};
ghost use Rattle.std.specs.List.{remove};
ghost use Rattle.codec.specs.Formats.{many, number8};
ghost use Rattle.codec.specs.Pieces.{Adds};
ghost use Rattle.codec.specs.declared.piece.TheConstants.{GREATEST_PIECE};
ghost use Rattle.codec.specs.Writing.{Puts, PutsAll};
ghost use Rattle.frames.specs.declared.version.Version.TheVariants.{Second};
ghost use Rattle.image_parts.specs.Grammar.{head_format, phases_format, held_format, ring_format};
ghost use Rattle.image_parts.specs.Grammar.{start_format, front_format, slots_format};
ghost use Rattle.image_parts.specs.Grammar.{others_format, waiting_format};
ghost use Rattle.image_parts.specs.Stored.{phases_by, stored_slot, stored_links};
ghost use Rattle.image_parts.specs.Links.{AreCounted};
ghost use Rattle.link.specs.Links.{link_at};

use crate::layout::Layout;
use crate::links::put_links;
use crate::lists::{put_all, put_counted};
use crate::parts::Head;
use crate::slots::{put_free_list, put_letters, put_slot_list};
use crate::tags::{ABSENT, FIRST, PRESENT, SECOND, START, WIDE};
use codec::{Piece, Writer};
use cycles::{Phases, Ring};
use frames::writing::{add_colour, add_token};
use heap::Heap;
use ids::Ref;
use link::Links;
use msg::Token;

// The sizes of the space and the node's own number.
#[tactic(auto, unfolding(crate::specs::Grammar::head_format, crate::specs::Grammar::nodes_format), using(crate::proofs::Joins::gained))]
#[inline(always)]
fn add_head(piece: &mut Piece, head: &Head)
    requires { length piece.old + 8 ≤ GREATEST_PIECE }
    ensures { Adds (head_format Second) 8 piece.old piece.new head.now }
{
    piece.u8(head.nodes);
    piece.u8(head.own);
    piece.u16(head.registers);
    piece.u32(head.slots);
}

// A node's cycles, and how far it has swept.
#[tactic(auto, unfolding(crate::specs::Grammar::phases_format), using(crate::proofs::Joins::gained))]
#[inline(always)]
fn add_phases(piece: &mut Piece, p: &Phases)
    requires { length piece.old + 28 ≤ GREATEST_PIECE }
    ensures { Adds phases_format 28 piece.old piece.new (phases_by p.now) }
{
    piece.u64(p.cycle());
    piece.u64(p.ended());
    piece.u64(p.swept());
    piece.u32(p.cursor());
}

/// Appends what an image begins with: two letters, and the layout.
#[tactic(auto, unfolding(crate::specs::Grammar::start_format, crate::specs::Grammar::layout_format))]
pub fn put_start(out: &mut Writer, layout: Layout)
    ensures { Puts start_format out.old out.new layout }
{
    match layout {
        Layout::First => out.array([START[0], START[1], FIRST]),
        Layout::Second => out.array([START[0], START[1], SECOND]),
        Layout::Wide { places, bytes } => {
            out.array([START[0], START[1], WIDE, places]);
            out.u32(bytes);
        }
    }
}

/// Appends what comes before the lists: the head, the cycles, and the node's colour, its balances
/// and the token that it holds. It is one piece, whose length is known in each of the two cases.
#[tactic(auto, unfolding(crate::specs::Grammar::front_format, crate::specs::Grammar::ring_format, crate::specs::Grammar::held_format), using(crate::proofs::Joins::gained, crate::proofs::Joins::piece_written))]
pub fn put_front(out: &mut Writer, head: &Head, phases: &Phases, ring: Ring)
    ensures { Puts (front_format Second) out.old out.new
        (head.now, (phases_by phases.now, ring)) }
{
    let mut piece = Piece::new();
    add_head(&mut piece, head);
    add_phases(&mut piece, phases);
    add_colour(&mut piece, ring.colour());
    piece.i64(ring.earlier());
    piece.i64(ring.recent());
    match ring.token() {
        None => {
            piece.u8(ABSENT);
            out.piece(piece);
        }
        Some(token) => {
            piece.u8(PRESENT);
            add_token(&mut piece, token);
            out.piece(piece);
        }
    }
}

/// Appends reports one after another.
pub fn put_reports(out: &mut Writer, reports: &[u64])
    ensures { PutsAll number8 out.old out.new reports.now }
{
    put_all(out, reports);
}

// The three counts of a heap without slots.
#[tactic(auto, unfolding(crate::specs::Grammar::slots_format, crate::specs::Numbers::number4))]
fn put_no_slots(out: &mut Writer)
    ensures { Puts (slots_format false Second) out.old out.new ([], ([], [])) }
{
    out.array([0; 12]);
}

/// Appends the slots of a heap of a wide space or a plain one, and which of them are free and which
/// grey.
#[tactic(auto, unfolding(crate::specs::Grammar::slots_format), using(crate::proofs::Joins::both))]
pub fn put_slots(out: &mut Writer, wide: bool, heap: &Heap)
    ensures { Puts (slots_format wide Second) out.old out.new
        (map stored_slot heap.now.heap.slots, (heap.now.heap.free, heap.now.heap.grey)) }
{
    if heap.slots() == 0 && heap.vacant() == 0 && heap.grey_slots().is_empty() {
        put_no_slots(out);
        return;
    }
    put_slot_list(out, wide, heap);
    put_free_list(out, heap);
    put_counted(out, heap.grey_slots());
}

// The two counts of a node that asked for nothing and has no letters.
#[tactic(auto, unfolding(crate::specs::Numbers::number4))]
fn put_none_waiting(out: &mut Writer)
    ensures { (wide : Bool) → Puts (waiting_format wide Second) out.old out.new ([], []) }
{
    out.array([0; 8]);
}

// Appends the references that were asked for, and the letters.
#[tactic(auto, using(crate::proofs::Joins::both))]
fn put_waiting(out: &mut Writer, wide: bool, asked: &[Ref], heap: &Heap)
    ensures { Puts (waiting_format wide Second) out.old out.new (asked.now, heap.now.heap.letters) }
{
    if asked.is_empty() && heap.letters() == 0 {
        put_none_waiting(out);
        return;
    }
    put_counted(out, asked);
    put_letters(out, wide, heap);
}

/// Appends the references that were asked for, the letters, and the links to all nodes except the
/// head's own, of a node of a wide space or a plain one.
pub fn put_others(
    out: &mut Writer,
    wide: bool,
    head: &Head,
    asked: &[Ref],
    heap: &Heap,
    links: &Links,
)
    requires { (to : ℕ) → AreCounted (link_at links.now to) }
    ensures { Puts (others_format wide Second head.now) out.old out.new (
      asked.now,
      (
        heap.now.heap.letters,
        remove (stored_links links.now.links links.now.got) head.now.own,
      ),
    ) }
{
    put_waiting(out, wide, asked, heap);
    put_links(out, head.own, links);
}
