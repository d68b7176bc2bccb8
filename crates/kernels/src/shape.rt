// The six shapes of a lens opening.
ghost use Rattle.std.specs.Prelude.{◌≡◌};
ghost use Rattle.kernels_model.specs.Shape.{boxes_of, top_of, tap_count, count_of, reach_of, top_under};

use kernels_model::fixed::CENTRE_MARKS;
use kernels_model::shape::Shape;

// How many boxes are convolved into a kernel; 1 for a shape that is no box.
pub fn boxes(s: Shape) -> usize
    ensures { result ≡ boxes_of s }
{
    match s {
        Shape::Box | Shape::Diamond | Shape::Hexagon | Shape::Octagon => 1,
        Shape::Tent => 2,
        Shape::Triple => 3,
    }
}

// The largest radius of a shape, whatever the plate.
pub fn top(s: Shape) -> usize
    ensures { result ≡ top_of s }
{
    match s {
        Shape::Box | Shape::Diamond | Shape::Hexagon | Shape::Octagon => 64,
        Shape::Tent => 8,
        Shape::Triple => 3,
    }
}

// How many marks a kernel's taps have.
fn tap_marks(s: Shape) -> u32
    ensures { result ≡ tap_count s }
{
    match s {
        Shape::Box => 4,
        Shape::Tent => 9,
        Shape::Triple => 16,
        Shape::Diamond => 8,
        Shape::Hexagon | Shape::Octagon => 12,
    }
}

// How many marks a kernel has: those of its taps, and those of its centre.
pub fn mark_count(s: Shape) -> u32
    ensures { result ≡ count_of s }
{
    tap_marks(s) + CENTRE_MARKS
}

// How far a kernel reaches from its pixel: each box by its radius.
pub fn reach(s: Shape, radius: u8) -> usize
    ensures { result ≡ reach_of s radius }
{
    boxes(s) * usize::from(radius)
}

// The largest radius of a shape on a plate whose kernels reach no further than `reach`.
pub fn top_under(s: Shape, reach: usize) -> u8
    ensures { result ≡ top_under s reach }
{
    top(s).min(reach / boxes(s)) as u8
}
