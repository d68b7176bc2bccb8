// A layer: all pixels of a plate, given by values, opacities and depths, with one lens and one shape.
ghost use Rattle.std.specs.Prelude.{◌≡◌, ℕ, ◌<◌, List, length, Ok};
ghost use Rattle.kernels_model.specs.Share.{share_table};
ghost use Rattle.plate_model.specs.Layout.{places};
ghost use Rattle.plate_model.specs.Lent.{state_of, inputs, SameSlices};
ghost use Rattle.kernels_model.specs.Listed.{zeros};
ghost use Rattle.plate_model.specs.Calls.{answer_of};
ghost use Rattle.plate.specs.Filling.{layer_of, inputs_read, layer_read, layer_size, Lawful, Roomy, Ready};
ghost use Rattle.plate.specs.Filling.{FilledOne, FilledTo, FilledRow, Refilled};

use crate::check::check_fill;
use crate::clear::clear;
use crate::lay::Site;
use crate::lent::Lent;
use crate::scan::{depth_between, value_above};
use crate::size::{Frame, PlateSize};
use crate::state::accepted;
use crate::word::pack;
use kernels::{Lens, Shape, Table};
use kernels_model::fixed::DEPTH_TOP;
use plate_model::lent::LentLengths;
use plate_model::state::{Answer, Refusal, State};
use plate_model::word::Pixel;

// What all pixels of a fill share, made once: the plate's frame, the lens, the shape and its largest radius there.
#[derive(Clone, Copy)]
pub struct Layer {
    pub frame: Frame,
    pub lens: Lens,
    pub shape: Shape,
    pub top: u8,
}

// The layer of a plate, a lens and a shape.
fn layer_of(size: PlateSize, lens: Lens, shape: Shape) -> Layer
    ensures { result ≡ layer_of size.size lens shape }
{
    Layer {
        frame: size.frame(),
        lens,
        shape,
        top: kernels::shape::top_under(shape, size.size.reach),
    }
}

// 5, 6, 11, 12 and 17: what a fill checks once its lengths are right. Depth 0 is infinity, and not inside the lens.
fn read_inputs(
    size: PlateSize,
    lens: Lens,
    shape: u8,
    values: &[u16],
    depths: &[u32],
) -> Result<Layer, Refusal>
    ensures { (opacities : List ℕ) → result
        ≡ inputs_read size.size lens shape (inputs values.now opacities depths.now) }
{
    if value_above(values) {
        return Err(Refusal::Value);
    }
    let shape = Shape::try_from(shape)?;
    if !kernels::lens::lawful_lens(lens) {
        return Err(Refusal::UnlawfulLens);
    }
    if depth_between(depths, DEPTH_TOP, u32::MAX) {
        return Err(Refusal::Depth);
    }
    if depth_between(depths, 0, lens.focal) {
        return Err(Refusal::DepthInside);
    }
    Ok(layer_of(size, lens, shape))
}

// What a fill is to lay: the lengths are checked first, then what the inputs hold.
pub(crate) fn read_layer(
    state: State,
    lent: LentLengths,
    lens: Lens,
    shape: u8,
    values: &[u16],
    opacities: usize,
    depths: &[u32],
) -> Result<Layer, Refusal>
    ensures { (given : List ℕ) → length given ≡ opacities → result
        ≡ layer_read state lens shape (inputs values.now given depths.now) lent }
{
    check_fill(state, lent, values.len(), opacities, depths.len())?;
    read_inputs(PlateSize { size: state.size }, lens, shape, values, depths)
}

// A fill at work: the layer, the table of shares, made once for all pixels, and what is given for each pixel.
#[derive(Clone, Copy)]
pub struct Filling<'a> {
    pub layer: Layer,
    pub table: &'a Table,
    pub values: &'a [u16],
    pub opacities: &'a [u8],
    pub depths: &'a [u32],
    ghost table_is: { table.now ≡ share_table },
    ghost lawful: { Lawful layer (inputs values.now opacities.now depths.now) },
}

impl Filling<'_> {
    ghost use Rattle.plate.specs.Given.{given};

    // The pixel at (x, y): its marks are laid, and its word is handed back. A lawful layer has a radius for every lawful depth.
    fn fill_pixel(&self, planes: &mut [u64], x: usize, y: usize) -> u64
        requires { Roomy self.now.layer (length planes.old) × (x < (layer_size self.now.layer).width)
            × (y < (layer_size self.now.layer).height) }
        ensures { FilledOne self.now.layer (given self.now) x y planes.old planes.new result }
    {
        let layer = self.layer;
        let place = y * layer.frame.size.width + x;
        let Ok(radius) = kernels::lens::radius_from(layer.lens, layer.top, self.depths[place])
        else {
            return 0;
        };
        let pixel = Pixel {
            value: self.values[place],
            opacity: self.opacities[place],
            shape: layer.shape,
            radius,
        };
        let share = kernels::share::share_in(self.table, layer.shape, radius);
        let site = Site {
            frame: layer.frame,
            x,
            y,
        };
        site.lay_pixel(planes, pixel, share, 1);
        pack(pixel)
    }

    // The pixels of row y. The loop goes by columns and not over slices: marks go by column and row, and a pixel's word and what is
    // given of it lie in four slices.
    fn fill_row(&self, planes: &mut [u64], pixels: &mut [u64], y: usize)
        requires { Roomy self.now.layer (length planes.old) × (length pixels.old ≡ places (layer_size self.now.layer))
            × (y < (layer_size self.now.layer).height) }
        ensures { FilledRow self.now.layer (given self.now) y planes.old pixels.old planes.new pixels.new }
    {
        let width = self.layer.frame.size.width;
        let start = y * width;
        for x in 0..width {
            pixels[start + x] = self.fill_pixel(planes, x, y);
        }
    }

    // All pixels, row after row, by the row's number: the marks of a row go over other rows of the planes too.
    fn fill_rows(&self, planes: &mut [u64], pixels: &mut [u64])
        requires { Roomy self.now.layer (length planes.old) × (length pixels.old ≡ places (layer_size self.now.layer)) }
        ensures { FilledTo self.now.layer (given self.now) planes.old planes.new
            pixels.new (places (layer_size self.now.layer)) }
    {
        for y in 0..self.layer.frame.size.height {
            self.fill_row(planes, pixels, y);
        }
    }
}

impl Lent<'_> {
    // Replaces every mark and every pixel, and empties the log: no marks are reported.
    pub(crate) fn refill(
        &mut self,
        layer: Layer,
        values: &[u16],
        opacities: &[u8],
        depths: &[u32],
    ) -> Answer
        requires { Ready layer (length self.old.planes.now) (length self.old.pixels.now)
            (inputs values.now opacities.now depths.now) }
        ensures value { result ≡ answer_of (Ok tt) 0 (state_of (layer_size layer) 0) }
        ensures refilled { Refilled layer (inputs values.now opacities.now depths.now)
            (length self.old.planes.now) (length self.old.log.now) self.new.planes.now
            self.new.pixels.now self.new.log.now }
        ensures slices { SameSlices self.old.planes self.new.planes self.old.pixels self.new.pixels self.old.log self.new.log }
    {
        clear(self.planes);
        clear(self.log);
        let table = kernels::share::shares();
        let filling = Filling {
            layer,
            table: &table,
            values,
            opacities,
            depths,
        };
        filling.fill_rows(self.planes, self.pixels);
        accepted(
            0,
            State {
                size: layer.frame.size,
                count: 0,
            },
        )
    }
}
