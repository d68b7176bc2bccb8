// Putting a pixel.
ghost use Rattle.std.specs.Prelude.{◌≡◌, Ok};
ghost use Rattle.plate_model.specs.Lent.{ask, lent_now, SameSlices};
ghost use Rattle.plate_model.specs.Calls.{put_by, put_call, leaves};
ghost use Rattle.plate_model.specs.Ready.{PutReady};

use crate::exchange::exchange;
use crate::lent::Lent;
use crate::state::{accepted, refused};
use crate::word::pack_entry;
use kernels::Shape;
use plate_model::change::Change;
use plate_model::lent::Ask;
use plate_model::state::{Answer, State};

// What a put asks for, with the shape that its number names.
pub(crate) fn asked(x: usize, y: usize, value: u16, opacity: u8, shape: u8, radius: u8) -> Ask
    ensures { result ≡ ask x y value opacity shape radius }
{
    Ask {
        x,
        y,
        value,
        opacity,
        shape: Shape::try_from(shape).ok(),
        radius,
    }
}

impl Lent<'_> {
    ghost use Rattle.plate.specs.Lending.{lent_of};

    // Logs the word at the place, and sets the new pixel there.
    pub(crate) fn log_and_exchange(&mut self, state: State, change: Change) -> Answer
        requires { PutReady state change (lent_of self.old) }
        ensures left { leaves result (lent_of self.new) ≡ put_by (Ok change) state (lent_of self.old) }
        ensures slices { SameSlices self.old.planes self.new.planes self.old.pixels self.new.pixels self.old.log self.new.log }
    {
        self.log[state.count] = pack_entry(self.pixels[change.place], change.place);
        let marks = exchange(state.size, change, self.planes, self.pixels);
        accepted(
            marks,
            State {
                count: state.count + 1,
                ..state
            },
        )
    }

    // Logs the word at the place that is asked for, takes its marks off and sets the new pixel. A refused put touches nothing.
    pub fn put_asked(&mut self, state: State, ask: Ask) -> Answer
        ensures left { leaves result (lent_now self.new.planes self.new.pixels self.new.log)
            ≡ put_call state ask (lent_now self.old.planes self.old.pixels self.old.log) }
        ensures slices { SameSlices self.old.planes self.new.planes self.old.pixels self.new.pixels self.old.log self.new.log }
    {
        match self.read_put(state, ask) {
            Ok(change) => self.log_and_exchange(state, change),
            Err(why) => refused(why, state),
        }
    }

    // The same at (x, y), by the paper's arguments, as C gives them: one by one, and the shape as its number.
    pub fn put(
        &mut self,
        state: State,
        x: usize,
        y: usize,
        value: u16,
        opacity: u8,
        shape: u8,
        radius: u8,
    ) -> Answer
        ensures left { leaves result (lent_now self.new.planes self.new.pixels self.new.log)
            ≡ put_call state (ask x y value opacity shape radius) (lent_now self.old.planes self.old.pixels self.old.log) }
        ensures slices { SameSlices self.old.planes self.new.planes self.old.pixels self.new.pixels self.old.log self.new.log }
    {
        let arguments = asked(x, y, value, opacity, shape, radius);
        self.put_asked(state, arguments)
    }
}
