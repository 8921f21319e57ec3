//! Writes results to places of the caller's. They keep what they hold if there is a fault.
ghost use Rattle.std.specs.Prelude.{◌≡◌};
ghost use Rattle.c_values.specs.Faults.{status, written};
ghost use Rattle.c_values.specs.Fields.{answer_fields, bit};

use crate::fault::{Fault, OK};
use crate::fields::CAnswer;
use model::Answer;

/// The status of a result that says nothing else.
pub fn status(done: Result<(), Fault>) -> i32
    ensures { result ≡ status done }
{
    match done {
        Ok(()) => OK,
        Err(fault) => fault.status(),
    }
}

/// Writes an answer, and returns the status.
#[inline(always)]
pub fn answered(given: Result<Answer, Fault>, answer: &mut CAnswer) -> i32
    ensures status { result ≡ status given }
    ensures written { answer.new ≡ written answer_fields given answer.old }
{
    match given {
        Ok(it) => {
            *answer = CAnswer::of(it);
            OK
        }
        Err(fault) => fault.status(),
    }
}

/// Writes a value, and returns the status.
pub fn written<T: Copy>(found: Result<T, Fault>, to: &mut T) -> i32
    ensures status { result ≡ status found }
    ensures written { to.new ≡ written (λ x. x) found to.old }
{
    match found {
        Ok(it) => {
            *to = it;
            OK
        }
        Err(fault) => fault.status(),
    }
}

/// Writes 1 for yes or 0 for no, and returns the status.
pub fn flagged(found: Result<bool, Fault>, flag: &mut u8) -> i32
    ensures status { result ≡ status found }
    ensures written { flag.new ≡ written bit found flag.old }
{
    match found {
        Ok(it) => {
            *flag = u8::from(it);
            OK
        }
        Err(fault) => fault.status(),
    }
}
