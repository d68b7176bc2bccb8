// What a record asks for where a run stands, and its effect on the lent buffers.
ghost use Rattle.std.specs.Prelude.{◌≡◌};
ghost use Rattle.plate_model.specs.Refusal.{returned};
ghost use Rattle.records_model.specs.declared.effect.Stage.TheVariants.{Closed, Opened};
ghost use Rattle.records_model.specs.Machine.{stopping, going_on, opening, answered, task_of};
ghost use Rattle.records.specs.Lending.{buffers_of, SameArrays};
ghost use Rattle.records.specs.Performed.{Performs};

use crate::lent::LentBuffers;
use crate::request::{call_on_front, put_request, show_on_front};
use plate::{Answer, Ask, Refusal, State};
use records_model::effect::{Effect, Reply, Stage};
use records_model::record::{Record, Stop};
use records_model::request::{Request, Task};

// A run that stops.
fn stopping(why: Stop) -> Effect
    ensures { result ≡ stopping why }
{
    Effect {
        stage: Stage::Ended,
        reply: Reply::StoppedBy(why),
    }
}

// A run that goes on: with this reply where its call is accepted.
#[tactic(auto, unfolding(records_model::specs::Machine::going_on))]
fn going_on(accepted: Reply, a: Answer) -> Effect
    ensures { result ≡ going_on accepted (returned a) }
{
    Effect {
        stage: Stage::Opened(a.state),
        reply: match a.outcome {
            Ok(()) => accepted,
            Err(why) => Reply::RefusedBy(u64::from(u32::from(why))),
        },
    }
}

// An open: the plate refuses wrong sizes by 1, and one that it is lent no cells for by their lengths, which is 16.
#[tactic(auto, unfolding(records_model::specs::Machine::opening))]
fn opening(a: Answer) -> Effect
    ensures { result ≡ opening (returned a) }
{
    match a.outcome {
        Ok(()) => Effect {
            stage: Stage::Opened(a.state),
            reply: Reply::Nothing,
        },
        Err(Refusal::Sizes) => stopping(Stop::Sizes),
        Err(_) => stopping(Stop::Cells),
    }
}

// What comes of the answer to a request.
#[tactic(auto, unfolding(records_model::specs::Machine::answered))]
fn answered(request: Request, a: Answer) -> Effect
    ensures { result ≡ answered request (returned a) }
{
    match request {
        Request::ToOpen(_) => opening(a),
        Request::ToPut(_) | Request::ToUndo(_) => going_on(Reply::Nothing, a),
    }
}

// What a record asks for before any plate is open.
#[tactic(auto, unfolding(records_model::specs::Machine::task_of))]
fn closed_task(item: Record) -> Task
    ensures { result ≡ task_of Closed item }
{
    match item {
        Record::Open(size) => Task::ToCall(Request::ToOpen(size)),
        Record::Put(_) | Record::NoShape(_) | Record::Undo | Record::Show => Task::ToStop(
            Stop::Order,
        ),
    }
}

// And on an open plate.
#[tactic(auto, unfolding(records_model::specs::Machine::task_of))]
fn opened_task(state: State, item: Record) -> Task
    ensures { result ≡ task_of (Opened state) item }
{
    match item {
        Record::Open(_) => Task::ToStop(Stop::Order),
        Record::Put(put) => Task::ToCall(put_request(state, Ask::from(put))),
        Record::NoShape(put) => Task::ToCall(put_request(state, Ask::from(put))),
        Record::Undo => Task::ToCall(Request::ToUndo(state)),
        Record::Show => Task::ToShow(state),
    }
}

// Wherever the run stands.
#[tactic(auto, unfolding(records_model::specs::Machine::task_of))]
pub(crate) fn task(stage: Stage, item: Record) -> Task
    ensures { result ≡ task_of stage item }
{
    match stage {
        Stage::Closed => closed_task(item),
        Stage::Opened(state) => opened_task(state, item),
        Stage::Ended => Task::ToStand(Stage::Ended),
    }
}

// The task done.
pub(crate) fn perform(task: Task, buffers: &mut LentBuffers) -> Effect
    ensures performs { Performs task (buffers_of buffers.old) result (buffers_of buffers.new) }
    ensures same_arrays { SameArrays buffers.old buffers.new }
{
    match task {
        Task::ToStand(stage) => Effect {
            stage,
            reply: Reply::Nothing,
        },
        Task::ToStop(why) => stopping(why),
        Task::ToCall(request) => {
            let a = call_on_front(request, buffers.planes, buffers.pixels, buffers.log);
            answered(request, a)
        }
        Task::ToShow(state) => {
            let a = show_on_front(
                state,
                buffers.planes,
                buffers.scratch,
                buffers.values,
                buffers.mattes,
            );
            going_on(Reply::Pictures(state.size), a)
        }
    }
}
