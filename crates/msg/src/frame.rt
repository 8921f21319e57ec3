//! Frames, the units that links carry: a message with its addresses and number, or an
//! acknowledgement. Every frame is within the limits by construction, so it has a spelling.
ghost use Rattle.std.specs.Prelude.{◌≡◌, ◌&&◌, true, false, IsTrue, IsSome, IfSome, IsOk, IfOk, ◌↔◌};
ghost use Rattle.std.specs.List.{list_all};
ghost use Rattle.ids.specs.Limits.{reference_fits};
ghost use Rattle.msg.specs.Limits.{nodes_fit, optional_fits, place_fits, body_fits};
ghost use Rattle.msg.specs.Limits.{data_fits, ack_fits, fetch_fits, is_post, letter_fits};
ghost use Rattle.msg.specs.Limits.{is_plain_reference, is_plain_optional, is_plain_place, is_plain_body};

use crate::body::Body;
use ids::{
    GREATEST_CYCLE, GREATEST_LETTER, GREATEST_NODES, GREATEST_NUMBER, GREATEST_PLACES,
    PLAIN_PLACES, PLAIN_SLOTS, Ref, WORD_BYTES,
};
use std::alloc::AllocError;

/// A message with its addresses, as a link carries it: its number on the link, the sender's cycle
/// when it was appended, and what it says. The two nodes differ, the number is 1 to
/// [`GREATEST_NUMBER`], the stamp is at most [`GREATEST_CYCLE`], and every part is within the
/// limits.
#[derive(Drop)]
pub struct Data {
    pub from: u8,
    pub to: u8,
    pub number: u64,
    pub stamp: u64,
    pub body: Body,
    pub ghost fits: { IsTrue (data_fits from to number stamp body) },
}

/// The same, with a borrowed body.
#[derive(Clone, Copy)]
pub struct DataRef<'a> {
    pub from: u8,
    pub to: u8,
    pub number: u64,
    pub stamp: u64,
    pub body: &'a Body,
    pub ghost fits: { IsTrue (data_fits from to number stamp body.now) },
}

/// An acknowledgement: the node `by` has received and saved all messages of the node `of` up to
/// this number. The two nodes differ, and the number is at most [`GREATEST_NUMBER`].
#[derive(Clone, Copy)]
pub struct Ack {
    pub by: u8,
    pub of: u8,
    pub number: u64,
    pub ghost fits: { IsTrue (ack_fits by of number) },
}

/// What a link carries: a message or an acknowledgement.
#[derive(Drop)]
pub enum Frame {
    /// A message.
    Data(Data),
    /// An acknowledgement.
    Ack(Ack),
}

/// The same, with a borrowed body.
#[derive(Clone, Copy)]
pub enum FrameRef<'a> {
    /// A message.
    Data(DataRef<'a>),
    /// An acknowledgement.
    Ack(Ack),
}

fn nodes_fit(from: u8, to: u8) -> bool
    ensures { result ≡ nodes_fit from to }
{
    from < GREATEST_NODES && to < GREATEST_NODES && from != to
}

/// Whether the reference, if there is one, is within the limits; see [`Ref::fits`].
pub fn optional_fits(reference: Option<Ref>) -> bool
    ensures { result ≡ optional_fits reference }
{
    reference.is_none_or(Ref::fits)
}

fn place_fits(target: Ref, place: u8) -> bool
    ensures { result ≡ place_fits target place }
{
    target.fits() && place < GREATEST_PLACES
}

/// Whether everything that the body says is within the limits: its references (see [`Ref::fits`]),
/// and its place, which must be below [`GREATEST_PLACES`].
pub fn body_fits(body: &Body) -> bool
    ensures { result ≡ body_fits body.now }
{
    match *body {
        Body::Begin | Body::Token(_) | Body::Ended | Body::Swept => true,
        Body::Mark { target } => target.fits(),
        Body::Give { reference, .. } => optional_fits(reference),
        Body::Put {
            target,
            place,
            reference,
        } => place_fits(target, place) && optional_fits(reference),
        Body::Get { target, place, .. } => place_fits(target, place),
        Body::Post { .. } => post_fits(body),
        Body::Fetch { target, count, .. } => target.fits() && fetch_fits(count),
    }
}

// Whether a letter with references and bytes is within the limits. (Of other bodies it says
// nothing.)
#[inline(never)]
fn post_fits(body: &Body) -> bool
    ensures { is_post body.now ≡ true → result ≡ body_fits body.now }
{
    match body {
        Body::Post {
            references,
            bytes,
            ..
        } => letter_fits(references.as_slice(), bytes.len()),
        _ => true,
    }
}

fn all_fit(references: &[Option<Ref>]) -> bool
    ensures { result ≡ list_all optional_fits references.now }
{
    references.iter().all(|reference| optional_fits(*reference))
}

fn letter_fits(references: &[Option<Ref>], bytes: usize) -> bool
    ensures { result ≡ letter_fits references.now bytes }
{
    references.len() <= usize::from(GREATEST_PLACES)
        && (bytes <= GREATEST_LETTER as usize && all_fit(references))
}

/// Whether a letter may carry an object's word and this many of its bytes.
pub fn fetch_fits(count: u32) -> bool
    ensures { result ≡ fetch_fits count }
{
    count <= GREATEST_LETTER - WORD_BYTES
}

fn is_plain_reference(reference: Ref) -> bool
    ensures { result ≡ is_plain_reference reference }
{
    reference.slot < PLAIN_SLOTS
}

fn is_plain_optional(reference: Option<Ref>) -> bool
    ensures { result ≡ is_plain_optional reference }
{
    reference.is_none_or(is_plain_reference)
}

fn is_plain_place(target: Ref, place: u8) -> bool
    ensures { result ≡ is_plain_place target place }
{
    is_plain_reference(target) && place < PLAIN_PLACES
}

/// Whether a plain space has room for every reference of the body, and for its place: slots are
/// below [`PLAIN_SLOTS`], and places below [`PLAIN_PLACES`].
#[inline(always)]
pub fn is_plain_body(body: &Body) -> bool
    ensures { result ≡ is_plain_body body.now }
{
    match *body {
        Body::Begin | Body::Token(_) | Body::Ended | Body::Swept => true,
        Body::Mark { target } => is_plain_reference(target),
        Body::Give { reference, .. } => is_plain_optional(reference),
        Body::Put {
            target,
            place,
            reference,
        } => is_plain_place(target, place) && is_plain_optional(reference),
        Body::Get { target, place, .. } => is_plain_place(target, place),
        Body::Post { .. } | Body::Fetch { .. } => false,
    }
}

fn fits_plain_reference(reference: Ref) -> bool
    ensures { result ≡ (reference_fits reference && is_plain_reference reference) }
{
    reference.node < GREATEST_NODES && (reference.slot < PLAIN_SLOTS && reference.generation >= 1)
}

fn fits_plain_optional(reference: Option<Ref>) -> bool
    ensures { result ≡ (optional_fits reference && is_plain_optional reference) }
{
    match reference {
        Some(reference) => fits_plain_reference(reference),
        None => true,
    }
}

fn fits_plain_place(target: Ref, place: u8) -> bool
    ensures { result ≡ (place_fits target place && is_plain_place target place) }
{
    fits_plain_reference(target) && place < PLAIN_PLACES
}

// Whether the body is within the limits, and a plain space has room for it.
fn fits_plain_body(body: &Body) -> bool
    ensures { result ≡ (body_fits body.now && is_plain_body body.now) }
{
    match *body {
        Body::Begin | Body::Token(_) | Body::Ended | Body::Swept => true,
        Body::Mark { target } => fits_plain_reference(target),
        Body::Give { reference, .. } => fits_plain_optional(reference),
        Body::Put {
            target,
            place,
            reference,
        } => fits_plain_place(target, place) && fits_plain_optional(reference),
        Body::Get { target, place, .. } => fits_plain_place(target, place),
        Body::Post { .. } | Body::Fetch { .. } => false,
    }
}

/// Whether a message of these parts is within the limits, and a plain space has room for it; see
/// [`is_plain_body`].
#[inline(always)]
pub fn plain_data_fits(from: u8, to: u8, number: u64, stamp: u64, body: &Body) -> bool
    ensures { result ≡ (data_fits from to number stamp body.now && is_plain_body body.now) }
{
    let number_fits = 1 <= number && number <= GREATEST_NUMBER;
    nodes_fit(from, to) && number_fits && stamp <= GREATEST_CYCLE && fits_plain_body(body)
}

/// Whether a message of these parts is within the limits.
#[inline(never)]
pub fn data_fits(from: u8, to: u8, number: u64, stamp: u64, body: &Body) -> bool
    ensures { result ≡ data_fits from to number stamp body.now }
{
    let number_fits = 1 <= number && number <= GREATEST_NUMBER;
    nodes_fit(from, to) && number_fits && stamp <= GREATEST_CYCLE && body_fits(body)
}

impl Data {
    ghost use Rattle.msg.specs.Frames.{data_frame, plain_data};

    /// The message of these parts, or `None` if they aren't within the limits.
    pub fn new(from: u8, to: u8, number: u64, stamp: u64, body: Body) -> Option<Data>
        ensures within { IsSome result ↔ IsTrue (data_fits from to number stamp body) }
        ensures value { IfSome result (λ d. plain_data d ≡ data_frame from to number stamp body) }
    {
        if data_fits(from, to, number, stamp, &body) {
            Some(Data {
                from,
                to,
                number,
                stamp,
                body,
            })
        } else {
            None
        }
    }

    /// The same message once more; see [`Body::copy`].
    pub fn copy(&self) -> Result<Data, AllocError>
        ensures same { IfOk result (λ d. d ≡ self.now) }
        ensures spared { is_post self.now.body ≡ false → IsOk result }
    {
        let body = self.body.copy()?;
        Ok(Data {
            from: self.from,
            to: self.to,
            number: self.number,
            stamp: self.stamp,
            body,
        })
    }
}

impl Ack {
    ghost use Rattle.msg.specs.Frames.{ack_frame, plain_ack};

    /// The acknowledgement of these parts, or `None` if they aren't within the limits.
    pub fn new(by: u8, of: u8, number: u64) -> Option<Ack>
        ensures within { IsSome result ↔ IsTrue (ack_fits by of number) }
        ensures value { IfSome result (λ a. plain_ack a ≡ ack_frame by of number) }
    {
        if nodes_fit(by, of) && number <= GREATEST_NUMBER {
            Some(Ack { by, of, number })
        } else {
            None
        }
    }
}
