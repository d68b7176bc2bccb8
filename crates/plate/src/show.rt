// Show: the planes finished into the two pictures. One pass over the rows sums light and matte side by side and rounds each row
// of the image at once, so that no channel's sums are ever stored. Scratch and the two pictures are lent one by one, as C lends
// them: behind a `&mut` of a struct that holds them, the check does not cover reading sums while a picture is written.
ghost use Rattle.std.specs.Prelude.{◌≡◌, ◌+◌, ◌-◌, length};
ghost use Rattle.std.specs.List.{between};
ghost use Rattle.plate_model.specs.Lent.{views_at_entry, views_at_exit};
ghost use Rattle.plate_model.specs.Calls.{show_call, shows};
ghost use Rattle.plate.specs.Passes.{sums_end, matte_after};
ghost use Rattle.plate.specs.Showing.{light_channel, image_of, BothIn, AboveReady, BothReady, BothSummed, SumsOfRow, RowRounded};
ghost use Rattle.plate.specs.Showing.{ImageReady, ShownTo, ShowReady, ShowDone};

use crate::check::check_show;
use crate::pass::Channel;
use crate::size::PlateSize;
use crate::state::{accepted, refused};
use kernels::rounding::{shown_matte, shown_value};
use kernels_model::fixed::MARGIN;
use plate_model::state::{Answer, State};

// The image in a padded plane: its first column, which is its first row as well, and its sizes.
#[derive(Clone, Copy)]
pub(crate) struct Image {
    pub first: usize,
    pub width: usize,
    pub height: usize,
}

impl Image {
    // The image of a plate.
    pub(crate) fn of(size: PlateSize) -> Image
        ensures { result ≡ image_of size.size }
    {
        Image {
            first: size.size.reach + MARGIN,
            width: size.size.width,
            height: size.size.height,
        }
    }

    // The finished sums of a row's cells in the image, light's and matte's, after that row is summed: those of the last columns.
    pub(crate) fn row_of<'a>(self, scratch: &'a [u64], light: Channel) -> (&'a [u64], &'a [u64])
        requires fits { SumsOfRow self light (length scratch.now) }
        ensures light_is { result.0.now ≡ between (sums_end light - self.width) (sums_end light) scratch.now }
        ensures matte_is { result.1.now ≡ between (sums_end (matte_after light) - self.width) (sums_end (matte_after light)) scratch.now }
    {
        let light_end = light.matte_after().sums;
        let matte_end = light_end + (light_end - light.sums);
        (
            &scratch[light_end - self.width..light_end],
            &scratch[matte_end - self.width..matte_end],
        )
    }
}

// Light of a plate's planes: it is summed up to the image's last column, since no sum goes leftwards.
pub(crate) fn light_channel(size: PlateSize) -> Channel
    ensures { result ≡ light_channel size.size }
{
    let frame = size.frame();
    Channel {
        columns: size.size.reach + MARGIN + size.size.width,
        wide: frame.wide,
        high: frame.high,
        sums: 0,
        marks: 0,
    }
}

// Both channels' sums, before the first row.
fn lay_both(scratch: &mut [u64], planes: &[u64], light: Channel)
    requires { BothIn light scratch.old planes.now }
    ensures { BothSummed light planes.now scratch.old scratch.new 0 }
{
    light.start_sums(scratch, planes);
    light.matte_after().start_sums(scratch, planes);
}

// Both channels' sums, one row further.
pub(crate) fn sum_both(scratch: &mut [u64], planes: &[u64], light: Channel, row: usize)
    requires { BothReady light scratch.old planes.now row }
    ensures { BothSummed light planes.now scratch.old scratch.new (row + 1) }
{
    light.sum_next(scratch, planes, row);
    light.matte_after().sum_next(scratch, planes, row);
}

// The rows above the image: they are summed, and nothing is shown of them.
pub(crate) fn sum_above(scratch: &mut [u64], planes: &[u64], light: Channel, rows: usize)
    requires { AboveReady light scratch.old planes.now rows }
    ensures { BothSummed light planes.now scratch.old scratch.new rows }
{
    lay_both(scratch, planes, light);
    for row in 0..rows {
        sum_both(scratch, planes, light, row);
    }
}

// A run of cells shown, by their finished sums of light and of matte. All four slices go by one index: after a loop over
// `iter_mut` of two that are zipped nothing is known of what they hold.
pub(crate) fn round_row(values: &mut [u16], mattes: &mut [u8], light: &[u64], matte: &[u64])
    requires values_fit { length values.old ≡ length light.now }
    requires mattes_fit { length mattes.old ≡ length light.now }
    requires mattes_are { length matte.now ≡ length light.now }
    ensures { RowRounded light.now matte.now values.new mattes.new }
{
    for x in 0..light.len() {
        values[x] = shown_value(light[x], matte[x]);
        mattes[x] = shown_matte(matte[x]);
    }
}

// The rows of the image: each is summed, and shown while its sums are at hand. The cells of a row are cut out by their place: of
// what `chunks_mut` lends nothing is known afterwards.
fn show_rows(
    values: &mut [u16],
    mattes: &mut [u8],
    scratch: &mut [u64],
    planes: &[u64],
    light: Channel,
    image: Image,
)
    requires { ImageReady light image scratch.old planes.now values.old mattes.old }
    ensures { ShownTo light image planes.now values.new mattes.new image.height }
{
    for row in 0..image.height {
        sum_both(scratch, planes, light, image.first + row);
        let (light_row, matte_row) = image.row_of(scratch, light);
        let first = row * image.width;
        let past = first + image.width;
        round_row(
            &mut values[first..past],
            &mut mattes[first..past],
            light_row,
            matte_row,
        );
    }
}

// A show that nothing refuses.
fn show_all(
    state: State,
    planes: &[u64],
    scratch: &mut [u64],
    values: &mut [u16],
    mattes: &mut [u8],
)
    requires { ShowReady state.size planes.now scratch.old values.old mattes.old }
    ensures { ShowDone state planes.now (views_at_entry scratch values mattes)
        (views_at_exit scratch values mattes) }
{
    let size = PlateSize { size: state.size };
    let light = light_channel(size);
    let image = Image::of(size);
    sum_above(scratch, planes, light, image.first);
    show_rows(values, mattes, scratch, planes, light, image);
    scratch.fill(0);
}

// The pictures of what the planes hold, and the scratch cleared; or a refusal, and nothing is touched.
pub fn show(
    state: State,
    planes: &[u64],
    scratch: &mut [u64],
    values: &mut [u16],
    mattes: &mut [u8],
) -> Answer
    ensures { shows result (views_at_exit scratch values mattes)
        ≡ show_call state planes.now (views_at_entry scratch values mattes) }
{
    let outcome = check_show(
        state,
        planes.len(),
        scratch.len(),
        values.len(),
        mattes.len(),
    );
    if let Err(why) = outcome {
        return refused(why, state);
    }
    show_all(state, planes, scratch, values, mattes);
    accepted(0, state)
}
