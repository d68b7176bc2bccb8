// The sums that finish a channel's planes, in one pass over its rows. What a sum hands from row to row it keeps in the lent
// scratch, one cell for each column or for each line of a slope, and reads and raises it there: no sum has a copy of a row or a
// column for itself. Scratch and planes are two parameters of each function: a struct that held them would have to promise, for
// each call, that it still holds the same ones.
ghost use Rattle.std.specs.Prelude.{◌≡◌, ◌+◌, ◌-◌, ◌*◌, ◌%◌, ◌^◌, ◌<◌, ◌≤◌, length};
ghost use Rattle.kernels_model.specs.Fixed.{third_box};
ghost use Rattle.plate.specs.Passes.{sums_end, marks_end, starts_at, matte_after, marks_in, BoxesMet, InOrder, RowSummed, RowLaid};
ghost use Rattle.plate.specs.Passes.{ChannelIn, RowReady, Summed};

use kernels_model::fixed::{LEVEL, PLANES_EACH, SECOND_BOX, THIRD_BOX};

// The planes of the slopes −2, −1, 1 and 2. A line of a slope below 0 rises to the right.
const RISE_TWO: usize = LEVEL - 2;

const RISE_ONE: usize = LEVEL - 1;

const FALL_ONE: usize = LEVEL + 1;

const FALL_TWO: usize = LEVEL + 2;

// A channel to be summed, light or matte: how many columns of its planes, the cells in a row and the rows of a plane, and where
// its sums start in the scratch and its marks in the planes.
#[derive(Clone, Copy)]
pub(crate) struct Channel {
    pub columns: usize,
    pub wide: usize,
    pub high: usize,
    pub sums: usize,
    pub marks: usize,
}

// Where one row of a channel starts: in the scratch its box sums, the lines that it meets and the sums down; in the planes its
// marks, of which those of the next plane are `apart` cells on.
#[derive(Clone, Copy)]
pub(crate) struct Starts {
    pub third: usize,
    pub second: usize,
    pub falling_one: usize,
    pub falling_two: usize,
    pub rising_one: usize,
    pub rising_two: usize,
    pub down: usize,
    pub marks: usize,
    pub apart: usize,
}

// The sums across of a row's box planes and of its level plane, so far.
#[derive(Clone, Copy)]
pub(crate) struct Across {
    pub third: u64,
    pub second: u64,
    pub level: u64,
}

impl Channel {
    // A row's lines lie where those of the row before it lie, a column further: a line keeps its cell, and nothing moves.
    #[tactic(auto, unfolding(crate::specs::Passes::starts_at))]
    pub(crate) fn starts_at(self, row: usize) -> Starts
        requires { (row < self.high) × (sums_end self < 2 ^ 64) × (marks_end self < 2 ^ 64) }
        ensures { result ≡ starts_at self row }
    {
        let columns = self.columns;
        let high = self.high;
        let half = (high + 1) / 2;
        let ones = columns + high + 1;
        let twos = columns + half;
        let side = (row % 2) * twos;
        let third = self.sums;
        let falling_one = third + 2 * columns;
        let falling_two = falling_one + ones;
        let rising_one = falling_two + 2 * twos;
        let rising_two = rising_one + ones;
        Starts {
            third,
            second: third + columns,
            falling_one: falling_one + (high - row),
            falling_two: falling_two + side + (half - row / 2),
            rising_one: rising_one + row,
            rising_two: rising_two + side + row / 2,
            down: rising_two + 2 * twos,
            marks: self.marks + row * self.wide,
            apart: self.wide * high,
        }
    }

    // Matte, when light's sums and planes come right before its own.
    #[tactic(auto, unfolding(crate::specs::Passes::starts_at))]
    pub(crate) fn matte_after(self) -> Channel
        requires { (0 < self.high) × (sums_end self < 2 ^ 64) × (marks_end self < 2 ^ 64) }
        ensures { result ≡ matte_after self }
    {
        let starts = self.starts_at(0);
        Channel {
            columns: self.columns,
            wide: self.wide,
            high: self.high,
            sums: starts.down + self.columns,
            marks: self.marks + PLANES_EACH * starts.apart,
        }
    }

    // A channel's sums before the first row, whatever the scratch held. Rising lines have all their marks then: the sum of a line
    // from its foot to a row is what is left of it when the rows above that row have taken their marks off. So the sums down need
    // no second pass over the rows.
    #[tactic(auto, unfolding(crate::specs::Passes::starts_at))]
    pub(crate) fn start_sums(self, scratch: &mut [u64], planes: &[u64])
        requires { ChannelIn self scratch.old planes.now }
        ensures { Summed self planes.now scratch.old scratch.new 0 }
    {
        let end = self.starts_at(0).down + self.columns;
        scratch[self.sums..end].fill(0);
        for row in (0..self.high).rev() {
            self.starts_at(row).lay_row(scratch, planes, self.columns);
        }
    }

    // A channel's sums, one row further.
    pub(crate) fn sum_next(self, scratch: &mut [u64], planes: &[u64], row: usize)
        requires { RowReady self scratch.old planes.now row }
        ensures { Summed self planes.now scratch.old scratch.new (row + 1) }
    {
        self.starts_at(row).sum_row(scratch, planes, self.columns);
    }
}

impl Starts {
    // The row's mark in a plane at a column.
    fn mark(self, planes: &[u64], plane: usize, x: usize) -> u64
        requires plane_in { plane ≤ third_box }
        requires mark_in { self.marks + third_box * self.apart + x < length planes.now }
        ensures { result ≡ marks_in planes.now self plane x }
    {
        planes[self.marks + x + plane * self.apart]
    }

    // The box planes at a column: third goes into second, and that into the level plane, each summed across and down on the way.
    fn add_boxes(self, scratch: &mut [u64], planes: &[u64], x: usize, sums: Across) -> Across
        requires { InOrder self (x + 1) (length scratch.old) (length planes.now) }
        ensures { BoxesMet planes.now scratch.old scratch.new self x sums result }
    {
        let third = sums.third.wrapping_add(self.mark(planes, THIRD_BOX, x));
        let third_down = add_to(&mut scratch[self.third + x], third);
        let second = add_three(sums.second, third_down, self.mark(planes, SECOND_BOX, x));
        let second_down = add_to(&mut scratch[self.second + x], second);
        let level = add_three(sums.level, second_down, self.mark(planes, LEVEL, x));
        Across {
            third,
            second,
            level,
        }
    }

    // One row of a channel. All its sums go in one loop, so that the sum down of a cell is read and stored once. A falling line
    // counts with its mark, and a rising line before its mark is taken off. The seven sums of a column lie in one slice and its
    // seven marks in another, so that a loop over both at once would zip fourteen parts of them: it goes by the column.
    fn sum_row(self, scratch: &mut [u64], planes: &[u64], columns: usize)
        requires { InOrder self columns (length scratch.old) (length planes.now) }
        ensures { RowSummed planes.now scratch.old scratch.new self columns }
    {
        let mut sums = Across {
            third: 0,
            second: 0,
            level: 0,
        };
        for x in 0..columns {
            sums = self.add_boxes(scratch, planes, x, sums);
            let falling_one = add_to(
                &mut scratch[self.falling_one + x],
                self.mark(planes, FALL_ONE, x),
            );
            let falling_two = add_to(
                &mut scratch[self.falling_two + x],
                self.mark(planes, FALL_TWO, x),
            );
            let rising_one = take_off(
                &mut scratch[self.rising_one + x],
                self.mark(planes, RISE_ONE, x),
            );
            let rising_two = take_off(
                &mut scratch[self.rising_two + x],
                self.mark(planes, RISE_TWO, x),
            );
            let falling = falling_one.wrapping_add(falling_two);
            let rising = rising_one.wrapping_add(rising_two);
            add_to(
                &mut scratch[self.down + x],
                add_three(sums.level, falling, rising),
            );
        }
    }

    // One row of marks onto the rising lines that it meets, by the column as in the sums.
    fn lay_row(self, scratch: &mut [u64], planes: &[u64], columns: usize)
        requires { InOrder self columns (length scratch.old) (length planes.now) }
        ensures { RowLaid planes.now scratch.old scratch.new self columns }
    {
        for x in 0..columns {
            add_to(
                &mut scratch[self.rising_one + x],
                self.mark(planes, RISE_ONE, x),
            );
            add_to(
                &mut scratch[self.rising_two + x],
                self.mark(planes, RISE_TWO, x),
            );
        }
    }
}

fn add_three(one: u64, two: u64, three: u64) -> u64
    ensures { result ≡ (one + (two + three)) % 2 ^ 64 }
{
    one.wrapping_add(two.wrapping_add(three))
}

// Adds to a cell, and hands out what it then holds.
fn add_to(cell: &mut u64, by: u64) -> u64
    ensures sum_is { result ≡ (cell.old + by) % 2 ^ 64 }
    ensures cell_is { cell.new ≡ result }
{
    *cell = cell.wrapping_add(by);
    *cell
}

// Takes off a cell, and hands out what it held before.
fn take_off(cell: &mut u64, by: u64) -> u64
    ensures held_is { result ≡ cell.old }
    ensures cell_is { cell.new ≡ (cell.old + (2 ^ 64 - 1) * by) % 2 ^ 64 }
{
    let held = *cell;
    *cell = held.wrapping_sub(by);
    held
}
