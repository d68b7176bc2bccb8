// What each call answers.
ghost use Rattle.std.specs.Prelude.{◌≡◌, Ok, Err};
ghost use Rattle.plate_model.specs.Refusal.{outcome_number};
ghost use Rattle.plate_model.specs.Calls.{answer_of};

use plate_model::state::{Answer, Outcome, Refusal, State};

// What an accepted call answers: the marks that it moved, and the state that it leaves.
pub(crate) fn accepted(marks: u32, state: State) -> Answer
    ensures { result ≡ answer_of (Ok tt) marks state }
{
    Answer {
        outcome: Ok(()),
        marks,
        state,
    }
}

// What a refused call answers: no marks, and the state that is handed back.
pub(crate) fn refused(why: Refusal, state: State) -> Answer
    ensures { result ≡ answer_of (Err why) 0 state }
{
    Answer {
        outcome: Err(why),
        marks: 0,
        state,
    }
}

// The paper's number of an outcome: 0 where the call is accepted.
pub fn number(outcome: Outcome) -> u32
    ensures { result ≡ outcome_number outcome }
{
    match outcome {
        Ok(()) => 0,
        Err(why) => u32::from(why),
    }
}
