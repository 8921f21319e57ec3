//! What a trace records of a call's answer: whether the call was done, a repeat, early or refused.
//! It keeps nothing of the answer itself.
ghost use Rattle.std.specs.Prelude.{◌≡◌};
ghost use Rattle.cell.specs.Events.{outcome_of, outcome_of_answer};

use crate::CallOutcome;
use ids::Refusal;
use model::Answer;

fn answer_outcome(answer: &Answer) -> CallOutcome
    ensures { result ≡ outcome_of_answer answer.now }
{
    match answer {
        Answer::Repeat => CallOutcome::Repeat,
        Answer::Early => CallOutcome::Early,
        Answer::Word(_)
        | Answer::New(_)
        | Answer::Done
        | Answer::Value(_)
        | Answer::Sent(_)
        | Answer::Letter(_)
        | Answer::Begun(_)
        | Answer::Reclaimed(_)
        | Answer::Scanned(_)
        | Answer::Passed(_)
        | Answer::ProbeAgain
        | Answer::Ended(_)
        | Answer::Freed { .. }
        | Answer::Received => CallOutcome::Done,
    }
}

pub(crate) fn outcome(answered: &Result<Answer, Refusal>) -> CallOutcome
    ensures { result ≡ outcome_of answered.now }
{
    match answered {
        Ok(answer) => answer_outcome(answer),
        Err(refusal) => CallOutcome::Refused(*refusal),
    }
}
