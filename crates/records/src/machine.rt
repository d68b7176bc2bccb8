// The machine: what a byte makes of it before anything is done, and its end.
ghost use Rattle.std.specs.Prelude.{◌≡◌, ◌≤◌};
ghost use Rattle.records_model.specs.Fixed.{buffer_room, text_room};
ghost use Rattle.records_model.specs.Machine.{ended_at, fresh, zeroed, settled_of, begun_of, carried_of, taken_of};
ghost use Rattle.records_model.specs.Machine.{end_text, finish_left, finish_call};
ghost use Rattle.records.specs.Written.{HasRoom, Writes};

use crate::perform::task;
use crate::record;
use crate::text::Writer;
use records_model::buffers::Buffers;
use records_model::effect::Stage;
use records_model::fixed::{BODY, CELLS, LOG, PLANE_CELLS, SCRATCH_CELLS, Text};
use records_model::machine::{Machine, Taken};
use records_model::record::Stop;
use records_model::request::Task;

// The machine before the first byte.
pub fn start() -> Machine
    ensures { result ≡ fresh }
{
    Machine {
        stage: Stage::Closed,
        kind: 0,
        held: 0,
        whole: 0,
        body: [0; BODY],
        count: 0,
    }
}

// And its buffers.
pub fn zeroed() -> Buffers
    ensures { result ≡ zeroed }
{
    Buffers {
        planes: [0; PLANE_CELLS],
        pixels: [0; CELLS],
        log: [0; LOG],
        scratch: [0; SCRATCH_CELLS],
        values: [0; CELLS],
        mattes: [0; CELLS],
    }
}

// Whether a run has stopped: no byte after that changes anything.
pub fn ended(m: Machine) -> bool
    ensures { result ≡ ended_at m.stage }
{
    matches!(m.stage, Stage::Ended)
}

// A record is done as soon as its body is whole.
#[tactic(auto, unfolding(records_model::specs::Machine::settled_of))]
fn settled(m: Machine) -> Taken
    ensures { result ≡ settled_of m }
{
    if m.held < m.whole {
        return Taken {
            machine: m,
            task: Task::ToStand(m.stage),
        };
    }
    let item = record::read(m.kind, m.body);
    Taken {
        machine: m,
        task: task(m.stage, item),
    }
}

// A byte of kind begins a record.
#[tactic(auto, unfolding(records_model::specs::Machine::begun_of, records_model::specs::Machine::begun_by))]
fn begun(m: Machine, byte: u8) -> Taken
    ensures { result ≡ begun_of m byte }
{
    let Some(count) = m.count.checked_add(1) else {
        return Taken {
            machine: m,
            task: Task::ToStand(Stage::Ended),
        };
    };
    let machine = Machine {
        kind: byte,
        count,
        ..m
    };
    match record::body_length(byte) {
        Some(whole) => settled(Machine {
            held: 0,
            whole,
            ..machine
        }),
        None => Taken {
            machine,
            task: Task::ToStop(Stop::Kind),
        },
    }
}

// A byte of a body goes to its place.
#[tactic(auto, unfolding(records_model::specs::Machine::carried_of))]
fn carried(m: Machine, byte: u8) -> Taken
    ensures { result ≡ carried_of m byte }
{
    if BODY <= m.held {
        return Taken {
            machine: m,
            task: Task::ToStand(Stage::Ended),
        };
    }
    let mut body = m.body;
    body[m.held] = byte;
    settled(Machine {
        held: m.held + 1,
        body,
        ..m
    })
}

// A byte taken in: no byte after a stop changes anything.
#[tactic(auto, unfolding(records_model::specs::Machine::taken_of))]
pub(crate) fn take(m: Machine, byte: u8) -> Taken
    ensures { result ≡ taken_of m byte }
{
    if ended(m) {
        return Taken {
            machine: m,
            task: Task::ToStand(Stage::Ended),
        };
    }
    if m.held < m.whole {
        return carried(m, byte);
    }
    begun(m, byte)
}

// The end of a run that has not stopped: 14 where a body is cut short, else the record count.
#[tactic(auto, unfolding(records_model::specs::Machine::end_text))]
fn end(m: Machine, text: &mut Writer)
    requires { HasRoom text_room text.old }
    ensures { Writes text.old (end_text m) text.new }
{
    if m.held < m.whole {
        return text.stopped(Stop::Body, m.count);
    }
    text.done(m.count);
}

// The end of the input: how many bytes of text stand at the start of `out` then.
pub fn finish(m: Machine, out: &mut Text) -> usize
    ensures left { finish_left out.new result ≡ finish_call m out.old }
    ensures within { result ≤ buffer_room }
{
    if ended(m) {
        return 0;
    }
    let mut text = Writer::new(out);
    end(m, &mut text);
    text.at
}
