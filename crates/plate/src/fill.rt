// Filling a plate: all its pixels at once, from values, opacities and depths.
ghost use Rattle.std.specs.Prelude.{◌≡◌};
ghost use Rattle.plate_model.specs.Lent.{inputs, lent_now, SameSlices};
ghost use Rattle.plate_model.specs.Calls.{fill_call, leaves};

use crate::layer::read_layer;
use crate::lent::Lent;
use crate::state::refused;
use kernels::Lens;
use plate_model::state::{Answer, State};

impl Lent<'_> {
    // Replaces all pixels and empties the log. A refused fill touches nothing and hands the state back.
    pub fn fill(
        &mut self,
        state: State,
        lens: Lens,
        shape: u8,
        values: &[u16],
        opacities: &[u8],
        depths: &[u32],
    ) -> Answer
        ensures left { leaves result (lent_now self.new.planes self.new.pixels self.new.log)
            ≡ fill_call state lens shape (inputs values.now opacities.now depths.now)
            (lent_now self.old.planes self.old.pixels self.old.log) }
        ensures slices { SameSlices self.old.planes self.new.planes self.old.pixels self.new.pixels self.old.log self.new.log }
    {
        let lengths = self.lengths();
        match read_layer(state, lengths, lens, shape, values, opacities.len(), depths) {
            Ok(layer) => self.refill(layer, values, opacities, depths),
            Err(why) => refused(why, state),
        }
    }
}
