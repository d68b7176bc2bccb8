// The second forms of show, put and undo. The show keeps the finished sums of the image: its passes are those of the first form,
// and the pictures are rounded from the sums that are kept. The put and the undo are the first forms, and mend sums and pictures
// where the old or the new kernel reaches.
ghost use Rattle.std.specs.Prelude.{◌≡◌, length};
ghost use Rattle.plate_model.specs.Lent.{ask, lent_now, SameSlices, views_at_entry, views_at_exit, canvas_at_entry, canvas_at_exit};
ghost use Rattle.plate_model.specs.Kept.{leaves_kept, put_kept_call, undo_kept_call, show_kept_call, shows_kept};
ghost use Rattle.plate.specs.Keeping.{KeepReady, KeptTo, ShowKeptReady, ShowKeptDone};

use crate::check::{check_kept, check_show_kept};
use crate::lent::Lent;
use crate::mend::mend;
use crate::pass::Channel;
use crate::put::asked;
use crate::show::{Image, light_channel, round_row, sum_above, sum_both};
use crate::size::PlateSize;
use crate::state::{accepted, refused};
use plate_model::state::{Answer, State};

// A row's finished sums kept. It goes by the column: `copy_from_slice` calls memmove, and the C library is to call nothing but
// memset and memcpy.
fn keep_row(kept: &mut [u64], row: &[u64])
    requires { length kept.old ≡ length row.now }
    ensures { kept.new ≡ row.now }
{
    for x in 0..row.len() {
        kept[x] = row[x];
    }
}

// The rows of the image: each is summed, and its sums are kept while they are at hand. Show has this loop too: one loop for both
// would take what is done with a row as a closure, which would have to be callable whatever the row and however long its sums.
fn keep_rows(sums: &mut [u64], scratch: &mut [u64], planes: &[u64], light: Channel, image: Image)
    requires { KeepReady light image scratch.old planes.now sums.old }
    ensures { KeptTo light image planes.now sums.new image.height }
{
    let places = image.width * image.height;
    for row in 0..image.height {
        sum_both(scratch, planes, light, image.first + row);
        let (light_row, matte_row) = image.row_of(scratch, light);
        let first = row * image.width;
        let past = first + image.width;
        keep_row(&mut sums[first..past], light_row);
        keep_row(&mut sums[places + first..places + past], matte_row);
    }
}

// A show that nothing refuses.
fn keep_all(
    state: State,
    planes: &[u64],
    scratch: &mut [u64],
    values: &mut [u16],
    mattes: &mut [u8],
    sums: &mut [u64],
)
    requires { ShowKeptReady state.size planes.now scratch.old values.old mattes.old sums.old }
    ensures { ShowKeptDone state planes.now (views_at_entry scratch values mattes)
        (views_at_exit scratch values mattes) sums.old sums.new }
{
    let size = PlateSize { size: state.size };
    let light = light_channel(size);
    let image = Image::of(size);
    sum_above(scratch, planes, light, image.first);
    keep_rows(sums, scratch, planes, light, image);
    let (light_sums, matte_sums) = sums.split_at(image.width * image.height);
    round_row(values, mattes, light_sums, matte_sums);
    scratch.fill(0);
}

// The pictures of what the planes hold, their finished sums kept, and the scratch cleared; or a refusal, and nothing is touched.
pub fn show_kept(
    state: State,
    planes: &[u64],
    scratch: &mut [u64],
    values: &mut [u16],
    mattes: &mut [u8],
    sums: &mut [u64],
) -> Answer
    ensures { shows_kept result (views_at_exit scratch values mattes) sums.new
        ≡ show_kept_call state planes.now (views_at_entry scratch values mattes) sums.old }
{
    let outcome = check_show_kept(
        state,
        planes.len(),
        scratch.len(),
        values.len(),
        mattes.len(),
        sums.len(),
    );
    if let Err(why) = outcome {
        return refused(why, state);
    }
    keep_all(state, planes, scratch, values, mattes, sums);
    accepted(0, state)
}

// The sums and the two pictures are lent one by one: a struct of them makes both calls slower, as `ReachedRow` says.
impl Lent<'_> {
    // Puts a pixel, and mends sums and pictures where its kernel or the old one's reaches. A refused put touches nothing. The pixel
    // comes as the paper's arguments, its shape as a number, as it does to `put`.
    pub fn put_kept(
        &mut self,
        state: State,
        x: usize,
        y: usize,
        value: u16,
        opacity: u8,
        shape: u8,
        radius: u8,
        sums: &mut [u64],
        values: &mut [u16],
        mattes: &mut [u8],
    ) -> Answer
        ensures left { leaves_kept result (lent_now self.new.planes self.new.pixels self.new.log)
            (canvas_at_exit sums values mattes)
            ≡ put_kept_call state (ask x y value opacity shape radius)
            (lent_now self.old.planes self.old.pixels self.old.log)
            (canvas_at_entry sums values mattes) }
        ensures slices { SameSlices self.old.planes self.new.planes self.old.pixels self.new.pixels self.old.log self.new.log }
    {
        let size = state.size;
        let checked = check_kept(size, sums.len(), values.len(), mattes.len());
        if let Err(why) = checked {
            return refused(why, state);
        }
        let arguments = asked(x, y, value, opacity, shape, radius);
        match self.read_put(state, arguments) {
            Ok(change) => {
                mend(size, change, sums, values, mattes);
                self.log_and_exchange(state, change)
            }
            Err(why) => refused(why, state),
        }
    }

    // Undoes the last put, and mends sums and pictures where either kernel reaches. A refused undo touches nothing. The steps are
    // those of `put_kept`, with another read and another change of the log: what both do is `check_kept`, `mend` and `exchange`.
    pub fn undo_kept(
        &mut self,
        state: State,
        sums: &mut [u64],
        values: &mut [u16],
        mattes: &mut [u8],
    ) -> Answer
        ensures left { leaves_kept result (lent_now self.new.planes self.new.pixels self.new.log)
            (canvas_at_exit sums values mattes)
            ≡ undo_kept_call state (lent_now self.old.planes self.old.pixels self.old.log)
            (canvas_at_entry sums values mattes) }
        ensures slices { SameSlices self.old.planes self.new.planes self.old.pixels self.new.pixels self.old.log self.new.log }
    {
        let size = state.size;
        let checked = check_kept(size, sums.len(), values.len(), mattes.len());
        if let Err(why) = checked {
            return refused(why, state);
        }
        match self.read_undo(state) {
            Ok(change) => {
                mend(size, change, sums, values, mattes);
                self.unlog_and_exchange(state, change)
            }
            Err(why) => refused(why, state),
        }
    }
}
