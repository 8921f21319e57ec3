//! What programs do in a space.
ghost use Rattle.std.specs.Prelude.{◌≡◌, true};
ghost use Rattle.model.specs.Steps.{is_own};

use crate::case::{Case, event_in};
use crate::gates::pause;
use cell::Shared;
use disk::Disk;
use ids::Refusal;
use model::{Answer, Event};
use std::sync::Wait;
use std::time::Clock;

// The label of the answer to a Get. A letter of another program has a smaller one.
const ASKED: u32 = u32::MAX;

// The register of the object whose word says what the program has accepted.
const TAKEN: u16 = 1;

/// What a program does, as the line says.
pub(crate) fn on_station<R: Clock + Wait, D: Disk>(rt: &R, cell: &Shared<D>, case: &mut Case) {
    match case.verb() {
        "take" => take_letters(rt, cell, case.number(2), case.number(3), case),
        "until" => match event_in(case.rest()) {
            Some(event) => act_until(rt, cell, &event, case),
            None => case.unknown(),
        },
        _ => match event_in(case.line()) {
            Some(event) => case.answer(cell.act(rt, &event)),
            None => case.unknown(),
        },
    }
}

// Accepts at most this many letters into a register. The word of the object in register 1 becomes
// the label of each, plus one, so that a restart shows which letters had been accepted.
fn take_letters<R: Wait, D: Disk>(
    rt: &R,
    cell: &Shared<D>,
    register: u16,
    count: u32,
    case: &mut Case,
) {
    for _ in 0..count {
        let answer = cell.act(rt, &Event::Accept { register });
        let Ok(Answer::Letter(letter)) = answer else {
            case.answer(answer);
            return;
        };
        if letter.label != ASKED {
            let taken = Event::SetWord {
                object: TAKEN,
                word: u64::from(letter.label) + 1,
            };
            let _ = cell.act(rt, &taken);
        }
        case.debug(&letter);
    }
}

// Repeats an event until there is a letter, a free slot, or no cycle under way.
fn act_until<R: Clock + Wait, D: Disk>(rt: &R, cell: &Shared<D>, event: &Event, case: &mut Case)
    requires { is_own event.now ≡ true }
{
    for _ in rt.forever() {
        match cell.act(rt, event) {
            Err(Refusal::NoLetter | Refusal::ArenaFull | Refusal::CycleRunning) => pause(rt),
            answer => {
                case.answer(answer);
                return;
            }
        }
    }
}
