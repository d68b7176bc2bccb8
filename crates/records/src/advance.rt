// A part of the input: as much of it is taken as there is room for the text of.
ghost use Rattle.std.specs.Prelude.{◌≡◌, ◌≤◌};
ghost use Rattle.records_model.specs.Fixed.{buffer_room, text_room};
ghost use Rattle.records_model.specs.Machine.{at_entry, at_exit, feed_of, advance_left, advance_call};
ghost use Rattle.records.specs.Lending.{buffers_of, SameArrays};
ghost use Rattle.records.specs.Written.{HasRoom, Writes};

use crate::lent::LentBuffers;
use crate::machine::take;
use crate::perform::perform;
use crate::text::Writer;
use records_model::advance::Advanced;
use records_model::buffers::Buffers;
use records_model::fixed::{FULL, Log, Mattes, Pixels, Planes, Scratch, Text, Values};
use records_model::machine::Machine;

// One byte more, its text after what stands there already.
fn feed(machine: Machine, byte: u8, buffers: &mut LentBuffers, text: &mut Writer) -> Machine
    requires { HasRoom text_room text.old }
    ensures machine { result ≡ (feed_of machine byte (buffers_of buffers.old)).machine }
    ensures buffers { buffers_of buffers.new ≡ (feed_of machine byte (buffers_of buffers.old)).buffers }
    ensures same_arrays { SameArrays buffers.old buffers.new }
    ensures text { Writes text.old (feed_of machine byte (buffers_of buffers.old)).text text.new }
{
    let taken = take(machine, byte);
    let next = taken.machine;
    let effect = perform(taken.task, buffers);
    text.reply(effect.reply, next.count, buffers);
    Machine {
        stage: effect.stage,
        ..next
    }
}

// Byte after byte, while the text of any record fits.
fn advance_lent(m: Machine, input: &[u8], buffers: &mut LentBuffers, out: &mut Text) -> Advanced
    ensures left { advance_left result (buffers_of buffers.new) out.new
        ≡ advance_call m input.now (buffers_of buffers.old) out.old }
    ensures same_arrays { SameArrays buffers.old buffers.new }
    ensures within { result.written ≤ buffer_room }
{
    let mut machine = m;
    let mut text = Writer::new(out);
    for (consumed, byte) in input.iter().enumerate() {
        if FULL < text.at {
            return Advanced {
                machine,
                consumed,
                written: text.at,
            };
        }
        machine = feed(machine, *byte, buffers, &mut text);
    }
    Advanced {
        machine,
        consumed: input.len(),
        written: text.at,
    }
}

// A part of the input: the machine after the bytes that were taken, with their text at the start of `out`. All are taken, unless
// the text of one record more might not fit; then the rest is for the next call.
pub fn advance(
    m: Machine,
    input: &[u8],
    planes: &mut Planes,
    pixels: &mut Pixels,
    log: &mut Log,
    scratch: &mut Scratch,
    values: &mut Values,
    mattes: &mut Mattes,
    out: &mut Text,
) -> Advanced
    ensures left { advance_left result (at_exit planes pixels log scratch values mattes) out.new
        ≡ advance_call m input.now (at_entry planes pixels log scratch values mattes) out.old }
    ensures within { result.written ≤ buffer_room }
{
    let mut lent = LentBuffers {
        planes,
        pixels,
        log,
        scratch,
        values,
        mattes,
    };
    advance_lent(m, input, &mut lent, out)
}

// The same on buffers that lie in one struct.
pub fn advance_in(m: Machine, input: &[u8], buffers: &mut Buffers, out: &mut Text) -> Advanced
    ensures left { advance_left result buffers.new out.new ≡ advance_call m input.now buffers.old out.old }
    ensures within { result.written ≤ buffer_room }
{
    advance(
        m,
        input,
        &mut buffers.planes,
        &mut buffers.pixels,
        &mut buffers.log,
        &mut buffers.scratch,
        &mut buffers.values,
        &mut buffers.mattes,
        out,
    )
}
