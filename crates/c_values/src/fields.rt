//! Answers, events, objects and numbers of nodes as structs of plain numbers, which is how C sees
//! them. The header `include/markring.h` has the same structs.
ghost use Rattle.std.specs.Prelude.{◌≡◌, ◌↔◌, IfSome, IsSome, Some, true};
ghost use Rattle.model.specs.Steps.{is_own};
ghost use Rattle.c_values.specs.Fields.{age_number, answer_fields, colour_number, event_of};
ghost use Rattle.c_values.specs.Fields.{freed_fields, letter_fields, no_answer, optional_fields};
ghost use Rattle.c_values.specs.Fields.{described, plain_fields, reference_fields, reference_of};
ghost use Rattle.c_values.specs.Fields.{state_fields, IsDescribed, token_fields};

use ids::{PLAIN_PLACES, Ref, Shape};
use model::{Accepted, Age, Answer, Event, Scope, Summary};
use msg::{Colour, Token};

/// A reference, or zeros for nothing: no reference has generation 0.
#[repr(C)]
#[derive(Clone, Copy)]
pub struct CRef {
    pub node: u8,
    pub slot: u32,
    pub generation: u64,
}

/// An answer. A field that the answer doesn't use is 0.
#[repr(C)]
#[derive(Clone, Copy)]
pub struct CAnswer {
    pub kind: u8,
    pub node: u8,
    pub colour: u8,
    pub done: u8,
    pub label: u32,
    pub count: u32,
    pub number: u64,
    pub sum: i64,
    pub reference: CRef,
}

/// An event of a node's own. A field that the event doesn't use may have any value.
#[repr(C)]
#[derive(Clone, Copy)]
pub struct CEvent {
    pub kind: u8,
    pub node: u8,
    pub place: u8,
    pub register: u16,
    pub source: u16,
    pub object: u16,
    pub label: u32,
    pub count: u32,
    pub word: u64,
}

/// The sizes of a space, and its kind: `wide` is 1 for a wide space and 0 for a plain one. Spaces
/// have no bytes in their objects, so `bytes` is 0.
#[repr(C)]
#[derive(Clone, Copy)]
pub struct CShape {
    pub slots: u32,
    pub bytes: u32,
    pub registers: u16,
    pub nodes: u8,
    pub places: u8,
    pub wide: u8,
}

/// A node in numbers.
#[repr(C)]
#[derive(Clone, Copy)]
pub struct CState {
    pub nodes: u8,
    pub own: u8,
    pub colour: u8,
    pub has_token: u8,
    pub registers: u16,
    pub places: u8,
    pub wide: u8,
    pub slots: u32,
    pub live: u32,
    pub cycle: u64,
    pub ended: u64,
    pub swept: u64,
    pub earlier: i64,
    pub recent: i64,
    pub grey: u64,
    pub letters: u64,
    pub bytes: u32,
}

/// The two links between a node and another one, in numbers of messages.
#[repr(C)]
#[derive(Clone, Copy)]
pub struct CLink {
    pub appended: u64,
    pub released: u64,
    pub acknowledged: u64,
    pub received: u64,
    pub received_saved: u64,
}

/// An object, except for its bytes and what its places hold. A flag is 1 or 0.
#[repr(C)]
#[derive(Clone, Copy)]
pub struct CObject {
    pub reference: CRef,
    pub word: u64,
    pub bytes: u32,
    pub places: u8,
    pub marked: u8,
    pub shared: u8,
    pub age: u8,
}

/// An object that was freed: its reference, and its word.
#[repr(C)]
#[derive(Clone, Copy)]
pub struct CFreed {
    pub reference: CRef,
    pub word: u64,
}

/// What the collector's share of a turn did. A flag is 1 or 0.
#[repr(C)]
#[derive(Clone, Copy)]
pub struct CWork {
    pub received: u64,
    pub scanned: u64,
    pub freed: u32,
    pub passed: u8,
    pub swept: u8,
    pub more: u8,
}

const NO_REFERENCE: CRef = CRef {
    node: 0,
    slot: 0,
    generation: 0,
};

const NO_ANSWER: CAnswer = CAnswer {
    kind: 0,
    node: 0,
    colour: 0,
    done: 0,
    label: 0,
    count: 0,
    number: 0,
    sum: 0,
    reference: NO_REFERENCE,
};

impl CRef {
    /// The fields of a reference.
    pub fn of(reference: Ref) -> CRef
        ensures { result ≡ reference_fields reference }
    {
        let Ref {
            node,
            slot,
            generation,
        } = reference;
        CRef {
            node,
            slot,
            generation,
        }
    }

    /// The reference of these fields.
    pub fn reference(self) -> Ref
        ensures { result ≡ reference_of self }
    {
        let CRef {
            node,
            slot,
            generation,
        } = self;
        Ref {
            node,
            slot,
            generation,
        }
    }

    /// The fields of a reference, or zeros.
    pub fn of_optional(reference: Option<Ref>) -> CRef
        ensures { result ≡ optional_fields reference }
    {
        match reference {
            Some(reference) => CRef::of(reference),
            None => NO_REFERENCE,
        }
    }
}

fn colour_number(colour: Colour) -> u8
    ensures { result ≡ colour_number colour }
{
    match colour {
        Colour::White => 0,
        Colour::Black => 1,
    }
}

impl CWork {
    /// Nothing was done.
    pub const NONE: CWork = CWork {
        received: 0,
        scanned: 0,
        freed: 0,
        passed: 0,
        swept: 0,
        more: 0,
    };
}

/// The number of an age.
pub fn age_number(age: Age) -> u8
    ensures { result ≡ age_number age }
{
    match age {
        Age::Old => 0,
        Age::Young => 1,
        Age::Remembered => 2,
    }
}

// An answer with a number.
fn numbered(kind: u8, number: u64) -> CAnswer
    ensures { result ≡ record no_answer { kind = kind; number = number } }
{
    CAnswer {
        kind,
        number,
        ..NO_ANSWER
    }
}

// An answer with a reference.
fn referring(kind: u8, reference: CRef) -> CAnswer
    ensures { result ≡ record no_answer { kind = kind; reference = reference } }
{
    CAnswer {
        kind,
        reference,
        ..NO_ANSWER
    }
}

fn of_kind(kind: u8) -> CAnswer
    ensures { result ≡ record no_answer { kind = kind } }
{
    CAnswer { kind, ..NO_ANSWER }
}

fn of_letter(letter: Accepted) -> CAnswer
    ensures { result ≡ letter_fields letter }
{
    CAnswer {
        kind: 5,
        node: letter.from,
        label: letter.label,
        count: u32::from(letter.count),
        number: letter.length as u64,
        reference: CRef::of_optional(letter.reference),
        ..NO_ANSWER
    }
}

fn of_token(token: Token) -> CAnswer
    ensures { result ≡ token_fields token }
{
    CAnswer {
        kind: 8,
        colour: colour_number(token.colour),
        sum: token.q,
        ..NO_ANSWER
    }
}

fn of_freed(count: u32, done: bool) -> CAnswer
    ensures { result ≡ freed_fields count done }
{
    CAnswer {
        kind: 11,
        count,
        done: u8::from(done),
        ..NO_ANSWER
    }
}

fn of_reclaimed(count: u32) -> CAnswer
    ensures { result ≡ record no_answer { kind = 15; count = count } }
{
    CAnswer {
        kind: 15,
        count,
        ..NO_ANSWER
    }
}

impl CAnswer {
    /// The fields of an answer.
    #[inline(always)]
    pub fn of(answer: Answer) -> CAnswer
        ensures { result ≡ answer_fields answer }
    {
        match answer {
            Answer::Done => of_kind(0),
            Answer::New(reference) => referring(1, CRef::of(reference)),
            Answer::Value(reference) => referring(2, CRef::of_optional(reference)),
            Answer::Word(word) => numbered(3, word),
            Answer::Sent(number) => numbered(4, number),
            Answer::Letter(letter) => of_letter(letter),
            Answer::Begun(cycle) => numbered(6, cycle),
            Answer::Scanned(reference) => referring(7, CRef::of(reference)),
            Answer::Passed(token) => of_token(token),
            Answer::ProbeAgain => of_kind(9),
            Answer::Ended(cycle) => numbered(10, cycle),
            Answer::Freed { count, done } => of_freed(count, done),
            Answer::Reclaimed(count) => of_reclaimed(count),
            Answer::Received => of_kind(12),
            Answer::Repeat => of_kind(13),
            Answer::Early => of_kind(14),
        }
    }
}

impl CEvent {
    /// The event that the fields describe. None if it isn't the kind of an event.
    pub fn event(&self) -> Option<Event<'static>>
        ensures value { result ≡ event_of self.now }
        ensures own { IfSome result (λ e. is_own e ≡ true) }
    {
        let CEvent {
            kind,
            node,
            place,
            register,
            source,
            object,
            label,
            count,
            word,
        } = *self;
        let event = match kind {
            1 => Event::Alloc {
                register,
                places: place,
            },
            2 => Event::Copy { register, source },
            3 => Event::Drop { register },
            4 => Event::Load {
                register,
                object,
                place,
            },
            5 => Event::Store {
                object,
                place,
                register,
            },
            6 => Event::Clear { object, place },
            7 => Event::Word { object },
            8 => Event::SetWord { object, word },
            9 => Event::Give {
                to: node,
                label,
                register,
            },
            10 => Event::Accept { register },
            11 => Event::Put {
                object,
                place,
                register,
            },
            12 => Event::Get {
                object,
                place,
                label,
            },
            13 => Event::Begin,
            14 => Event::Scan,
            15 => Event::Pass,
            16 => Event::Sweep { count },
            17 => Event::Next { from: node },
            20 => Event::Reclaim { scope: Scope::All },
            21 => Event::Reclaim {
                scope: Scope::Young,
            },
            24 => Event::Resolve {
                register,
                reference: Ref {
                    node,
                    slot: count,
                    generation: word,
                },
            },
            _ => return None,
        };
        Some(event)
    }
}

impl CShape {
    /// The fields of a plain space with these sizes, whether or not they are within its limits.
    pub fn plain(nodes: u8, registers: u16, slots: u32) -> CShape
        ensures { result ≡ plain_fields nodes registers slots }
    {
        CShape {
            slots,
            bytes: 0,
            registers,
            nodes,
            places: PLAIN_PLACES,
            wide: 0,
        }
    }

    /// The shape that the fields describe. None if they describe none, or if one is out of its
    /// limits.
    pub fn shape(&self) -> Option<Shape>
        ensures within { IsSome result ↔ IsDescribed (described self.now) }
        ensures value { IfSome result (λ s. Some s ≡ described self.now) }
    {
        let CShape {
            slots,
            bytes,
            registers,
            nodes,
            places,
            wide,
        } = *self;
        match (wide, bytes, places) {
            (0, 0, PLAIN_PLACES) => Shape::new(nodes, registers, slots),
            (1, _, _) => Shape::wide(nodes, registers, slots, places, bytes),
            _ => None,
        }
    }
}

impl CState {
    /// The fields of a node's numbers.
    pub fn of(state: Summary) -> CState
        ensures { result ≡ state_fields state }
    {
        CState {
            nodes: state.shape.nodes(),
            own: state.own,
            colour: colour_number(state.colour),
            has_token: u8::from(state.has_token),
            registers: state.shape.registers(),
            places: state.shape.places(),
            wide: u8::from(state.shape.is_wide()),
            slots: state.shape.slots(),
            live: state.live,
            cycle: state.cycle,
            ended: state.ended,
            swept: state.swept,
            earlier: state.earlier,
            recent: state.recent,
            grey: state.grey as u64,
            letters: state.letters as u64,
            bytes: state.shape.bytes(),
        }
    }
}
