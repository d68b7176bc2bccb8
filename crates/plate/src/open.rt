// Opening a plate.
ghost use Rattle.std.specs.Prelude.{◌≡◌};
ghost use Rattle.plate_model.specs.Layout.{size_from};
ghost use Rattle.plate_model.specs.Lent.{lent_now, SameSlices};
ghost use Rattle.plate_model.specs.Calls.{open_call, leaves};

use crate::check::check_open;
use crate::clear::clear;
use crate::lent::Lent;
use crate::state::{accepted, refused};
use plate_model::size::Size;
use plate_model::state::{Answer, State};

impl Lent<'_> {
    // Sets planes, pixels, every log entry and the log count to 0. A refused open touches nothing and hands back a state of zeros.
    pub fn open(&mut self, width: usize, height: usize, reach: usize) -> Answer
        ensures left { leaves result (lent_now self.new.planes self.new.pixels self.new.log)
            ≡ open_call (size_from width height reach) (lent_now self.old.planes self.old.pixels self.old.log) }
        ensures slices { SameSlices self.old.planes self.new.planes self.old.pixels self.new.pixels self.old.log self.new.log }
    {
        let size = Size {
            width,
            height,
            reach,
        };
        if let Err(why) = check_open(size, self.lengths()) {
            return refused(why, State::default());
        }
        clear(self.planes);
        clear(self.pixels);
        clear(self.log);
        accepted(0, State { size, count: 0 })
    }
}
