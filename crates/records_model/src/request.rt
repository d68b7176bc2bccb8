// What a record asks of the plate.
use crate::effect::Stage;
use crate::record::Stop;
use plate_model::lent::Ask;
use plate_model::size::Size;
use plate_model::state::State;

// A put: the plate's state, and what is asked of it.
#[derive(Clone, Copy, Debug, PartialEq, Eq)]
pub struct PutRequest {
    pub state: State,
    pub ask: Ask,
}

// A call that is lent planes, pixels and log.
#[derive(Clone, Copy, Debug, PartialEq, Eq)]
pub enum Request {
    ToOpen(Size),
    ToPut(PutRequest),
    ToUndo(State),
}

// What there is to do once a byte is taken in: stand somewhere and print nothing, stop, call the plate, or show it.
#[derive(Clone, Copy, Debug, PartialEq, Eq)]
pub enum Task {
    ToStand(Stage),
    ToStop(Stop),
    ToCall(Request),
    ToShow(State),
}
