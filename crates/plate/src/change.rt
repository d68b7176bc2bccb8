// What a put or an undo is to change, read before anything is touched.
ghost use Rattle.std.specs.Prelude.{◌≡◌};
ghost use Rattle.plate_model.specs.Lent.{lengths_of};
ghost use Rattle.plate_model.specs.Change.{put_read, undo_read};

use crate::check::{check_put, check_undo};
use crate::lent::Lent;
use crate::size::PlateSize;
use crate::word::{unpack, unpack_entry};
use plate_model::change::Change;
use plate_model::lent::Ask;
use plate_model::state::{Refusal, State};

// Both reads are inlined: what they answer would go through memory otherwise.
impl Lent<'_> {
    ghost use Rattle.plate.specs.Lending.{lent_of};

    // What a put is to change, by the lengths and by the pixels.
    #[inline(always)]
    pub(crate) fn read_put(&self, state: State, ask: Ask) -> Result<Change, Refusal>
        ensures { result ≡ put_read state ask (lengths_of (lent_of self.now)) self.now.pixels.now }
    {
        let lengths = self.lengths();
        let new = check_put(state, ask, lengths)?;
        let place = ask.y * state.size.width + ask.x;
        let old = unpack(self.pixels[place], state.size.reach).ok_or(Refusal::StoredWord)?;
        Ok(Change {
            place,
            x: ask.x,
            y: ask.y,
            old,
            new,
        })
    }

    // What an undo is to change, by the lengths, the pixels and the log: the pixel of the last entry is to come back to its place.
    #[inline(always)]
    pub(crate) fn read_undo(&self, state: State) -> Result<Change, Refusal>
        ensures { result ≡ undo_read state (lengths_of (lent_of self.now)) self.now.pixels.now self.now.log.now }
    {
        let lengths = self.lengths();
        check_undo(state, lengths)?;
        let size = state.size;
        let word = self.log[state.count - 1];
        let entry = unpack_entry(word, PlateSize { size }).ok_or(Refusal::StoredWord)?;
        let old = unpack(self.pixels[entry.place], size.reach).ok_or(Refusal::StoredWord)?;
        Ok(Change {
            place: entry.place,
            x: entry.place % size.width,
            y: entry.place / size.width,
            old,
            new: entry.pixel,
        })
    }
}
