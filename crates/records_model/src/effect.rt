// A record's effect: where the run stands after it, and what it has to print.
use crate::record::Stop;
use plate_model::size::Size;
use plate_model::state::State;

// Where a run stands: no plate yet, a plate, or the end after a stop.
#[derive(Clone, Copy, Debug, PartialEq, Eq)]
pub enum Stage {
    Closed,
    Opened(State),
    Ended,
}

// What a record has to print: nothing, the line of a stop, the line of a refusal by its number, or the pictures of a plate of
// these sizes. A refusal is a number here since `going_on` and `reply_text` define the line by the number that the plate returns.
#[derive(Clone, Copy, Debug, PartialEq, Eq)]
pub enum Reply {
    Nothing,
    StoppedBy(Stop),
    RefusedBy(u64),
    Pictures(Size),
}

#[derive(Clone, Copy, Debug, PartialEq, Eq)]
pub struct Effect {
    pub stage: Stage,
    pub reply: Reply,
}
