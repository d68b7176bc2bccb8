// The rows of a kernel: what a pixel of opacity 1 adds to each cell of a row, without the kernel's marks.
ghost use Rattle.std.specs.Prelude.{◌≡◌, ◌+◌, ◌*◌, ◌<◌};
ghost use Rattle.kernels_model.specs.Choice.{within, same};
ghost use Rattle.kernels_model.specs.Shape.{boxes_of};
ghost use Rattle.kernels_model.specs.Tap.{box_tap};
ghost use Rattle.kernels_model.specs.Band.{height_of, row_radius, band_for, band_weight, is_level};

use crate::shape::{boxes, top};
use kernels_model::band::Band;
use kernels_model::shape::Shape;
use kernels_model::share::Share;

// The tap d cells from the middle of a shape's boxes convolved. One box is level and two fall by 1 a cell. Three sum two up: 1, 3,
// 6, .. in the e cells from the end on, less three times as much in the m of them past the first box.
#[tactic(auto, using(crate::proofs::Laws::Bands::tap_laws))]
fn box_tap(s: Shape, radius: usize, d: usize) -> u64
    requires { radius < 256 }
    ensures { result ≡ box_tap (boxes_of s) radius d }
{
    if boxes(s) * radius < d {
        return 0;
    }
    match s {
        Shape::Box | Shape::Diamond | Shape::Hexagon | Shape::Octagon => 1,
        Shape::Tent => (2 * radius + 1 - d) as u64,
        Shape::Triple => {
            let e = 3 * radius + 1 - d;
            let m = radius.saturating_sub(d);
            ((e * (e + 1) - 3 * (m * (m + 1))) / 2) as u64
        }
    }
}

// The radius of the boxes in the column of the rows' own taps.
fn height(s: Shape, radius: usize) -> usize
    ensures { result ≡ height_of s radius }
{
    match s {
        Shape::Box | Shape::Tent | Shape::Triple | Shape::Diamond | Shape::Octagon => radius,
        Shape::Hexagon => 2 * (radius / 2),
    }
}

// The radius of the boxes in one row.
fn row_radius(s: Shape, radius: usize, dy: usize) -> usize
    ensures { result ≡ row_radius s radius dy }
{
    match s {
        Shape::Box | Shape::Tent | Shape::Triple => radius,
        Shape::Diamond => radius.saturating_sub(dy),
        Shape::Hexagon => radius.saturating_sub(dy - dy / 2),
        Shape::Octagon => radius.saturating_sub(dy.saturating_sub(radius / 2)),
    }
}

// How many cells from the middle on have a tap, in a row whose own tap is given.
#[tactic(auto, using(crate::proofs::Laws::Bands::choice_laws))]
fn span_of(s: Shape, radius: usize, own: u64) -> usize
    requires { radius < 256 }
    ensures { result ≡ within 1 own (boxes_of s * radius + 1) }
{
    if own == 0 { 0 } else { boxes(s) * radius + 1 }
}

// A number in the middle alone.
#[tactic(auto, using(crate::proofs::Laws::Bands::choice_laws))]
fn in_middle(d: usize, n: u32) -> u32
    ensures { result ≡ same d 0 n }
{
    if d == 0 { n } else { 0 }
}

// The row of a kernel dy cells from its middle, with what a tap is worth; no cells above the shape's top.
#[tactic(auto, using(crate::proofs::Laws::Bands::row_laws))]
pub fn band_of(s: Shape, radius: u8, share: Share, dy: usize) -> Band
    ensures { result ≡ band_for s radius share dy }
{
    let radius = usize::from(radius);
    if top(s) < radius {
        return Band {
            shape: s,
            radius: 0,
            span: 0,
            own: 0,
            each: 0,
            rest: 0,
        };
    }
    let wide = row_radius(s, radius, dy);
    let own = box_tap(s, height(s, radius), dy);
    Band {
        shape: s,
        radius: wide as u8,
        span: span_of(s, wide, own),
        own: own as u8,
        each: share.each,
        rest: in_middle(dy, share.rest),
    }
}

// What a pixel of opacity 1 adds to the cell dx cells from the middle of a band.
#[tactic(auto, using(crate::proofs::Laws::Bands::weight_laws))]
pub fn weight_at(band: Band, dx: usize) -> u64
    ensures { result ≡ band_weight band dx }
{
    if band.span <= dx {
        return 0;
    }
    let worth = u64::from(band.each) * u64::from(band.own);
    let middle = u64::from(in_middle(dx, band.rest));
    if boxes(band.shape) == 1 {
        worth + middle
    } else {
        worth * box_tap(band.shape, usize::from(band.radius), dx) + middle
    }
}

// Whether all cells of a band that have a tap have the same weight.
#[tactic(auto, unfolding(kernels_model::specs::Band::is_level))]
pub fn is_level(band: Band) -> bool
    ensures { result ≡ is_level band }
{
    boxes(band.shape) == 1 && band.rest == 0
}
