// The marks of a kernel, as the plate lays them: a grid of boxes, or two lines by the ends of their pieces.
ghost use Rattle.std.specs.Prelude.{◌≡◌, ◌+◌, ◌*◌, ◌≤◌, is_some, unwrap_or};
ghost use Rattle.kernels_model.specs.Fixed.{level};
ghost use Rattle.kernels_model.specs.declared.mark.Drawing.TheVariants.{Lines};
ghost use Rattle.kernels_model.specs.Drawing.{boxes_in, outline_of, drawing_of};

use kernels_model::fixed::{LEVEL, MARGIN, SECOND_BOX, THIRD_BOX};
use kernels_model::mark::{Boxes, Drawing, Line, Outline};
use kernels_model::shape::Shape;

// The pieces of a kernel's two lines, which run alike away from its middle row.
#[derive(Clone, Copy)]
struct Pieces {
    radius: usize,
    // the rows that the first column reaches
    edge: usize,
    // the columns of the first piece, and by how many rows each goes further than the one before
    rise: usize,
    slope: usize,
    // the columns of the level piece, if there is one; the last piece goes back as the first one came
    flat: Option<usize>,
}

// Boxes of a radius.
fn boxes_in(plane: usize, count: usize, radius: u8) -> Drawing
    ensures { result ≡ boxes_in plane count radius }
{
    Drawing::Grid(Boxes {
        plane,
        count,
        side: 2 * usize::from(radius) + 1,
    })
}

// The two lines, by the ends of their pieces.
#[tactic(auto, unfolding(kernels_model::specs::Drawing::outline_of))]
fn lines(p: Pieces) -> Drawing
    requires in_radius { (p.radius ≤ 255) × (p.rise ≤ p.radius) × (unwrap_or p.flat 0 ≤ 2 * p.radius) }
    requires slope_le_level { (p.slope ≤ level) × (p.edge + p.slope * p.rise ≤ p.radius) }
    ensures { result ≡ Lines (outline_of p.radius p.edge p.slope p.rise (unwrap_or p.flat 0) (is_some p.flat)) }
{
    let height = p.slope * p.rise;
    let top = p.radius + MARGIN - p.edge;
    let bottom = p.radius + MARGIN + p.edge + 1;
    let turn = MARGIN + p.rise;
    let back = turn + p.flat.unwrap_or(0);
    Drawing::Lines(Outline {
        rising: LEVEL - p.slope,
        falling: LEVEL + p.slope,
        flat: p.flat.is_some(),
        left: MARGIN,
        turn,
        back,
        right: back + (p.rise + 1),
        top: Line {
            edge: top,
            level: top - height,
            past: top + p.slope,
        },
        bottom: Line {
            edge: bottom,
            level: bottom + height,
            past: bottom - p.slope,
        },
    })
}

// The marks of the kernel of a shape and a radius.
#[tactic(auto, unfolding(kernels_model::specs::Drawing::drawing_of))]
pub fn draw(s: Shape, radius: u8) -> Drawing
    ensures { result ≡ drawing_of s radius }
{
    let r = usize::from(radius);
    let t = r / 2;
    match s {
        Shape::Box => boxes_in(LEVEL, 1, radius),
        Shape::Tent => boxes_in(SECOND_BOX, 2, radius),
        Shape::Triple => boxes_in(THIRD_BOX, 3, radius),
        Shape::Diamond => lines(Pieces {
            radius: r,
            edge: 0,
            rise: r,
            slope: 1,
            flat: None,
        }),
        Shape::Hexagon => lines(Pieces {
            radius: r,
            edge: 0,
            rise: t,
            slope: 2,
            flat: Some(2 * (r - t)),
        }),
        Shape::Octagon => lines(Pieces {
            radius: r,
            edge: t,
            rise: r - t,
            slope: 1,
            flat: Some(2 * t),
        }),
    }
}
