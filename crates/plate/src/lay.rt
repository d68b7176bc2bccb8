// Lays the marks of kernels in the planes: each mark is one sum in a light plane and one in the matte plane, as many planes on as
// a channel has.
ghost use Rattle.std.specs.Prelude.{◌≡◌, ℕ, suc, ◌*◌, ◌%◌, ◌^◌, ◌<◌, ◌≤◌, [], ◌∷◌, length};
ghost use Rattle.kernels_model.specs.Fixed.{planes_each, margin};
ghost use Rattle.kernels_model.specs.declared.mark.Drawing.TheVariants.{Lines};
ghost use Rattle.kernels_model.specs.declared.shape.Shape.TheVariants.{Box};
ghost use Rattle.kernels_model.specs.Mark.{mark, minus, choose, box_grid, scaled};
ghost use Rattle.kernels_model.specs.Drawing.{piece_marks, line_pieces, drawn_marks};
ghost use Rattle.plate_model.specs.Fixed.{planes_in_all};
ghost use Rattle.plate_model.specs.Marks.{lay_all};
ghost use Rattle.plate.specs.Laying.{Amounts, times, amounts_of, Opposite, spot, lay_drawn, factor, level_marks, grid_column};
ghost use Rattle.plate.specs.Laying.{AllIn, ColumnIn, FewBoxes, MarksFit, Placed, PixelReady, own_marks, origin_of, corner_of};
ghost use Rattle.plate.specs.Laying.{marks_at};

use crate::size::Frame;
use kernels::{Drawing, Line, Outline, Shape, Share};
use kernels_model::fixed::{LEVEL, MARGIN, PLANES_EACH};
use plate_model::word::Pixel;

// The coefficient of what is taken off: sums wrap.
pub(crate) const MINUS_ONE: u64 = u64::MAX;

// What a mark of coefficient 1 adds in light and in matte. Both wrap: to take a kernel off is to lay what wraps to its opposite.
#[derive(Clone, Copy)]
pub struct Amounts {
    pub light: u64,
    pub matte: u64,
}

impl Amounts {
    // Those of a pixel, with the share or the remainder that the mark carries.
    fn of(p: Pixel, part: u32) -> Amounts
        ensures { result ≡ amounts_of p part }
    {
        let matte = u64::from(p.opacity) * u64::from(part);
        Amounts {
            light: u64::from(p.value) * matte,
            matte,
        }
    }

    // What a mark of another coefficient adds.
    fn times(self, coefficient: u64) -> Amounts
        ensures { result ≡ times self coefficient }
    {
        Amounts {
            light: self.light.wrapping_mul(coefficient),
            matte: self.matte.wrapping_mul(coefficient),
        }
    }

    // The amounts that wrap to 0 with these.
    pub(crate) fn opposite(self) -> Amounts
        ensures { result ≡ times self (minus 1) }
    {
        self.times(MINUS_ONE)
    }
}

// Boxes over i, for up to three boxes: 1 at either end, and their number between.
fn choose(boxes: usize, i: usize) -> u64
    requires { (boxes ≤ 3) × (i ≤ boxes) }
    ensures { result ≡ choose boxes i }
{
    if i == 0 || i == boxes {
        1
    } else {
        boxes as u64
    }
}

// The factor of mark i along an axis of up to three boxes: (−1)^i times boxes over i.
fn factor(boxes: usize, i: usize) -> u64
    requires { (boxes ≤ 3) × (i ≤ boxes) }
    ensures { result ≡ factor boxes i % 2 ^ 64 }
{
    let over = choose(boxes, i);
    if i % 2 == 0 {
        over
    } else {
        MINUS_ONE.wrapping_mul(over)
    }
}

// The planes that a drawing is laid in: their cells, those of a padded plane in a row and in all, and the one that the drawing
// has as its corner.
#[derive(Drop)]
pub(crate) struct Board<'a> {
    pub cells: &'a mut [u64],
    pub wide: usize,
    pub padded: usize,
    pub corner: usize,
    ghost whole: { length cells.now ≡ planes_in_all * padded },
}

impl Board<'_> {
    ghost use Rattle.plate.specs.Board.{origin, Laid};

    // One mark: a sum in light, and one in matte.
    fn lay_mark(&mut self, plane: usize, x: usize, y: usize, w: Amounts)
        requires { spot (origin self.old) plane x y < planes_each * self.old.padded }
        ensures { (v : Amounts) (c : ℕ) → w ≡ times v c → Laid self.old self.new v (mark plane x y c ∷ []) }
    {
        let light = self.corner + (plane * self.padded + (y * self.wide + x));
        let matte = PLANES_EACH * self.padded + light;
        self.cells[light] = self.cells[light].wrapping_add(w.light);
        self.cells[matte] = self.cells[matte].wrapping_add(w.matte);
    }

    // A piece of a line: a mark at its start, and the opposite one a step past its last column, each at an (x, y).
    fn lay_piece(&mut self, plane: usize, start: (usize, usize), past: (usize, usize), w: Amounts)
        requires { AllIn (origin self.old) (piece_marks plane start.0 start.1 past.0 past.1 1 1) }
        ensures { (v : Amounts) (c d : ℕ) → Opposite v c d w
            → Laid self.old self.new v (piece_marks plane start.0 start.1 past.0 past.1 c d) }
    {
        self.lay_mark(plane, start.0, start.1, w);
        self.lay_mark(plane, past.0, past.1, w.opposite());
    }

    // The level piece of a line, where there is one.
    fn lay_level(&mut self, o: Outline, l: Line, w: Amounts)
        requires { AllIn (origin self.old) (level_marks 1 1 o l) }
        ensures { (v : Amounts) (c d : ℕ) → Opposite v c d w → Laid self.old self.new v (level_marks c d o l) }
    {
        if o.flat {
            self.lay_piece(LEVEL, (o.turn, l.level), (o.back, l.level), w);
        }
    }

    // The pieces of a line, the first and the last in the planes of their slopes. Inlined, so that the compiler lays all marks of
    // a kernel in one go.
    #[inline(always)]
    fn lay_line(&mut self, o: Outline, l: Line, first: usize, last: usize, w: Amounts)
        requires { AllIn (origin self.old) (line_pieces first last 1 1 o l) }
        ensures { (v : Amounts) (c d : ℕ) → Opposite v c d w → Laid self.old self.new v (line_pieces first last c d o l) }
    {
        self.lay_piece(first, (o.left, l.edge), (o.turn, l.level), w);
        self.lay_level(o, l, w);
        self.lay_piece(last, (o.back, l.level), (o.right, l.past), w);
    }

    // The lines of an outline: plus along the top, minus along the bottom.
    fn lay_lines(&mut self, o: Outline, w: Amounts)
        requires { AllIn (origin self.old) (drawn_marks (Lines o)) }
        ensures { Laid self.old self.new w (drawn_marks (Lines o)) }
    {
        self.lay_line(o, o.top, o.rising, o.falling, w);
        self.lay_line(o, o.bottom, o.falling, o.rising, w.opposite());
    }

    // A column of the grid of N boxes of a side.
    fn lay_column<const N: usize>(&mut self, plane: usize, side: usize, x: usize, w: Amounts)
        requires { ColumnIn (origin self.old) plane N side x }
        ensures { (v : Amounts) (c : ℕ) → w ≡ times v c
            → Laid self.old self.new v (grid_column plane N side x c (suc N)) }
    {
        for j in 0..=N {
            self.lay_mark(plane, x, MARGIN + j * side, w.times(factor(N, j)));
        }
    }

    // N boxes of a side convolved: their number is known to the compiler, which lays the marks in one go.
    fn lay_boxes<const N: usize>(&mut self, plane: usize, side: usize, w: Amounts)
        requires { AllIn (origin self.old) (box_grid plane N side margin margin) × (N ≤ 3) }
        ensures { Laid self.old self.new w (box_grid plane N side margin margin) }
    {
        for i in 0..=N {
            self.lay_column::<N>(plane, side, MARGIN + i * side, w.times(factor(N, i)));
        }
    }

    // The marks of a drawing.
    fn lay_drawing(&mut self, d: Drawing, w: Amounts)
        requires { AllIn (origin self.old) (drawn_marks d) × FewBoxes d }
        ensures { Laid self.old self.new w (drawn_marks d) }
    {
        match d {
            Drawing::Lines(o) => self.lay_lines(o, w),
            Drawing::Grid(b) => match b.count {
                1 => self.lay_boxes::<1>(b.plane, b.side, w),
                2 => self.lay_boxes::<2>(b.plane, b.side, w),
                _ => self.lay_boxes::<3>(b.plane, b.side, w),
            },
        }
    }
}

// The marks of the taps of a shape and a radius, their drawing laid from the corner; each mark is worth w for 1 of its
// coefficient. Of the frame it reads two numbers, which the compiler hands over in registers: a function that made the board
// would be handed the frame in memory.
fn lay_taps(planes: &mut [u64], frame: Frame, corner: usize, shape: Shape, radius: u8, w: Amounts)
    requires { MarksFit (origin_of frame corner) (length planes.old) (own_marks shape radius) }
    ensures { planes.new ≡ lay_drawn (origin_of frame corner) w planes.old (own_marks shape radius) }
{
    let mut board = Board {
        cells: planes,
        wide: frame.wide,
        padded: frame.padded,
        corner,
    };
    board.lay_drawing(kernels::mark::draw(shape, radius), w);
}

// The marks of a kernel's centre: a box of radius 0 in slope 0, laid from its corner.
fn lay_centre(planes: &mut [u64], frame: Frame, corner: usize, w: Amounts)
    requires { MarksFit (origin_of frame corner) (length planes.old) (own_marks Box 0) }
    ensures { planes.new ≡ lay_drawn (origin_of frame corner) w planes.old (own_marks Box 0) }
{
    let mut board = Board {
        cells: planes,
        wide: frame.wide,
        padded: frame.padded,
        corner,
    };
    board.lay_boxes::<1>(LEVEL, 1, w);
}

// A pixel's column and row on a plate with its frame.
#[derive(Clone, Copy)]
pub(crate) struct Site {
    pub frame: Frame,
    pub x: usize,
    pub y: usize,
    ghost placed: { Placed frame x y },
}

impl Site {
    // The cell that a kernel around it has as its corner: as far in as it leaves of the plate's reach.
    fn corner(self, reach: usize) -> usize
        requires { reach ≤ self.frame.size.reach }
        ensures { result ≡ corner_of self.frame self.x self.y reach }
    {
        let spare = self.frame.size.reach - reach;
        (self.y + spare) * self.frame.wide + (self.x + spare)
    }

    // Lays the marks of a pixel there, each with so many times its coefficient: those of its taps, and those of its centre. To lay
    // them minus one times is to take them off. Inlined, since a call would hand site and pixel over in memory.
    #[inline(always)]
    pub(crate) fn lay_pixel(self, planes: &mut [u64], p: Pixel, share: Share, times: u64)
        requires { PixelReady self.frame (length planes.old) p share }
        ensures { planes.new ≡ lay_all self.frame.size planes.old (scaled times (marks_at self.frame self.x self.y p)) }
    {
        let shape = p.shape;
        let taps = Amounts::of(p, share.each).times(times);
        let centre = Amounts::of(p, share.rest).times(times);
        let corner = self.corner(kernels::shape::reach(shape, p.radius));
        let middle = self.corner(0);
        lay_taps(planes, self.frame, corner, shape, p.radius, taps);
        lay_centre(planes, self.frame, middle, centre);
    }
}
