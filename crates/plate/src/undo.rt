// Undoing the last put.
ghost use Rattle.std.specs.Prelude.{◌≡◌, Ok};
ghost use Rattle.plate_model.specs.Calls.{undo_by, undo_call, leaves};
ghost use Rattle.plate_model.specs.Lent.{lent_now, SameSlices};
ghost use Rattle.plate_model.specs.Ready.{UndoReady};

use crate::exchange::exchange;
use crate::lent::Lent;
use crate::state::{accepted, refused};
use plate_model::change::Change;
use plate_model::state::{Answer, State};

impl Lent<'_> {
    ghost use Rattle.plate.specs.Lending.{lent_of};

    // Zeroes the last log entry, and puts the logged pixel back in its place. What this and a put's `log_and_exchange` both do is
    // `exchange`: one function for both would branch at the log and at the count, and what it promises would name both calls.
    pub(crate) fn unlog_and_exchange(&mut self, state: State, change: Change) -> Answer
        requires { UndoReady state change (lent_of self.old) }
        ensures left { leaves result (lent_of self.new) ≡ undo_by (Ok change) state (lent_of self.old) }
        ensures slices { SameSlices self.old.planes self.new.planes self.old.pixels self.new.pixels self.old.log self.new.log }
    {
        let last = state.count - 1;
        self.log[last] = 0;
        let marks = exchange(state.size, change, self.planes, self.pixels);
        accepted(
            marks,
            State {
                count: last,
                ..state
            },
        )
    }

    // Reads the last log entry, then zeroes it, and puts the logged pixel back in its place. A refused undo touches nothing.
    pub fn undo(&mut self, state: State) -> Answer
        ensures left { leaves result (lent_now self.new.planes self.new.pixels self.new.log)
            ≡ undo_call state (lent_now self.old.planes self.old.pixels self.old.log) }
        ensures slices { SameSlices self.old.planes self.new.planes self.old.pixels self.new.pixels self.old.log self.new.log }
    {
        match self.read_undo(state) {
            Ok(change) => self.unlog_and_exchange(state, change),
            Err(why) => refused(why, state),
        }
    }
}
