// Mending: kept sums and pictures after a change, where the old or the new kernel has a tap. A row in which each kernel has one
// weight for all its cells is mended run by run, and any other cell by cell.
ghost use Rattle.std.specs.Prelude.{◌≡◌, ◌+◌, ◌-◌, ◌%◌, ◌^◌, ◌<◌, ◌≤◌, min, true, map};
ghost use Rattle.kernels_model.specs.Mark.{minus};
ghost use Rattle.kernels_model.specs.Shape.{top_of};
ghost use Rattle.kernels_model.specs.Share.{share_parts};
ghost use Rattle.kernels_model.specs.Band.{is_level};
ghost use Rattle.plate_model.specs.Fixed.{side_top};
ghost use Rattle.plate_model.specs.Lent.{canvas, canvas_at_entry, canvas_at_exit};
ghost use Rattle.plate_model.specs.Kept.{mended};
ghost use Rattle.plate.specs.Mending.{GivenIn, GivesFew, CellIn, CellDone, amounts_at, RunIn, RunGiven};
ghost use Rattle.plate.specs.Mending.{MendReady, RowToMend, InRow, MendedWhere};

use crate::lay::Amounts;
use crate::show::round_row;
use kernels::band::{band_of, is_level, weight_at};
use kernels::rounding::{shown_matte, shown_value};
use kernels::{Band, Share};
use plate_model::change::Change;
use plate_model::size::Size;
use plate_model::word::Pixel;
use std::ops::Range;

// What a pixel gives the cells of one row: its value and its opacity, and its kernel's row.
#[derive(Clone, Copy)]
pub struct Given {
    pub value: u64,
    pub opacity: u64,
    pub band: Band,
}

impl Given {
    // What a pixel gives the row that is dy rows from it.
    fn in_row(p: Pixel, share: Share, dy: usize) -> Given
        requires radius_bound { p.radius ≤ top_of p.shape }
        requires share_value { share ≡ share_parts p.shape p.radius }
        ensures { GivenIn p dy result }
    {
        Given {
            value: u64::from(p.value),
            opacity: u64::from(p.opacity),
            band: band_of(p.shape, p.radius, share, dy),
        }
    }

    // What it gives the cell that is dx columns from it.
    fn at(self, dx: usize) -> Amounts
        requires { GivesFew self }
        ensures { result ≡ amounts_at self dx }
    {
        let matte = self.opacity * weight_at(self.band, dx);
        Amounts {
            light: self.value * matte,
            matte,
        }
    }
}

// A row of the plate that a change reaches, and what the old and the new pixel give its cells. The kept sums and both pictures come
// as three parameters: behind a `&mut` of a struct that holds them, a put that mends takes 8 in 100 more instructions.
#[derive(Clone, Copy)]
pub struct ReachedRow {
    pub size: Size,
    pub change: Change,
    pub row: usize,
    pub old: Given,
    pub new: Given,
}

impl ReachedRow {
    // The cells of the row that a kernel reaches.
    fn mend(self, sums: &mut [u64], values: &mut [u16], mattes: &mut [u8])
        requires { RowToMend self.size self.change self.row self.old self.new (canvas sums.old values.old mattes.old) }
        ensures { MendedWhere self.size self.change (InRow self.size self.change self.row) (canvas_at_entry sums values mattes)
            (canvas_at_exit sums values mattes) }
    {
        if is_level(self.old.band) && is_level(self.new.band) {
            self.mend_runs(sums, values, mattes);
        } else {
            self.mend_cells(sums, values, mattes);
        }
    }

    // Those cells, one after the other: the ones of the wider of the two kernels' rows.
    fn mend_cells(self, sums: &mut [u64], values: &mut [u16], mattes: &mut [u8])
        requires { RowToMend self.size self.change self.row self.old self.new (canvas sums.old values.old mattes.old) }
        ensures { MendedWhere self.size self.change (InRow self.size self.change self.row) (canvas_at_entry sums values mattes)
            (canvas_at_exit sums values mattes) }
    {
        let width = self.size.width;
        let places = width * self.size.height;
        let start = self.row * width;
        let x = self.change.x;
        let span = self.old.band.span.max(self.new.band.span);
        for column in cells_around(x, span, width) {
            let dx = column.abs_diff(x);
            mend_cell(
                sums,
                values,
                mattes,
                places,
                start + column,
                dx,
                self.old,
                self.new,
            );
        }
    }

    // Those cells, where both kernels' rows are level: the old one's run of sums, the new one's, and then the pictures of the wider
    // of them, so that the divisions do not wait for sums that come from memory.
    fn mend_runs(self, sums: &mut [u64], values: &mut [u16], mattes: &mut [u8])
        requires row_to_mend { RowToMend self.size self.change self.row self.old self.new (canvas sums.old values.old mattes.old) }
        requires band_value { (is_level self.old.band ≡ true) × (is_level self.new.band ≡ true) }
        ensures { MendedWhere self.size self.change (InRow self.size self.change self.row) (canvas_at_entry sums values mattes)
            (canvas_at_exit sums values mattes) }
    {
        let width = self.size.width;
        let places = width * self.size.height;
        let start = self.row * width;
        let x = self.change.x;
        let old_run = cells_around(x, self.old.band.span, width);
        let new_run = cells_around(x, self.new.band.span, width);
        give_run(sums, places, start, old_run, self.old.at(0).opposite());
        give_run(sums, places, start, new_run, self.new.at(0));
        let wide_run = cells_around(x, self.old.band.span.max(self.new.band.span), width);
        let first = start + wide_run.start;
        let past = first + wide_run.len();
        round_row(
            &mut values[first..past],
            &mut mattes[first..past],
            &sums[first..past],
            &sums[places + first..places + past],
        );
    }
}

// The cells of a line of `end` cells that are less than `span` from the one at `at`.
fn cells_around(at: usize, span: usize, end: usize) -> Range<usize>
    requires { (at < end) × (end ≤ side_top) × (span ≤ side_top) }
    ensures { (result.start ≡ at + 1 - span) × (result.end ≡ min (at + span) end) }
{
    (at + 1).saturating_sub(span)..(at + span).min(end)
}

// A sum less what the old pixel gave, and plus what the new one gives.
#[tactic(auto, unfolding(kernels_model::specs::Mark::minus))]
fn mend_sum(kept: u64, gave: u64, gives: u64) -> u64
    ensures { result ≡ (kept + minus gave + gives) % 2 ^ 64 }
{
    kept.wrapping_sub(gave).wrapping_add(gives)
}

// One cell, dx columns from the change: both its sums are mended, and its pictures rounded from them. It is no method of the row,
// since its contract names the two pixels and the place alone.
fn mend_cell(
    sums: &mut [u64],
    values: &mut [u16],
    mattes: &mut [u8],
    places: usize,
    place: usize,
    dx: usize,
    old: Given,
    new: Given,
)
    requires { CellIn places place old new (canvas sums.old values.old mattes.old) }
    ensures { CellDone places place dx old new (canvas_at_entry sums values mattes) (canvas_at_exit sums values mattes) }
{
    let gave = old.at(dx);
    let gives = new.at(dx);
    let light = mend_sum(sums[place], gave.light, gives.light);
    let matte = mend_sum(sums[places + place], gave.matte, gives.matte);
    sums[place] = light;
    sums[places + place] = matte;
    values[place] = shown_value(light, matte);
    mattes[place] = shown_matte(matte);
}

// A number added to each sum of a run.
fn add_run(sums: &mut [u64], by: u64)
    ensures { sums.new ≡ map (λ sum. (sum + by) % 2 ^ 64) sums.old }
{
    for sum in sums.iter_mut() {
        *sum = sum.wrapping_add(by);
    }
}

// What a pixel gives a range of the row that starts at `start`, in light and in matte.
fn give_run(sums: &mut [u64], places: usize, start: usize, columns: Range<usize>, by: Amounts)
    requires { RunIn places start columns sums.old }
    ensures { RunGiven places start columns by sums.old sums.new }
{
    let first = start + columns.start;
    let past = first + columns.len();
    add_run(&mut sums[first..past], by.light);
    add_run(&mut sums[places + first..places + past], by.matte);
}

// Mends all cells that the old or the new kernel reaches: the rows of the larger of their squares.
pub(crate) fn mend(
    size: Size,
    change: Change,
    sums: &mut [u64],
    values: &mut [u16],
    mattes: &mut [u8],
)
    requires { MendReady size change (canvas sums.old values.old mattes.old) }
    ensures { canvas_at_exit sums values mattes ≡ mended size change (canvas_at_entry sums values mattes) }
{
    let old = change.old;
    let new = change.new;
    let old_share = kernels::share::share_of(old.shape, old.radius);
    let new_share = kernels::share::share_of(new.shape, new.radius);
    let old_reach = kernels::shape::reach(old.shape, old.radius);
    let new_reach = kernels::shape::reach(new.shape, new.radius);
    for row in cells_around(change.y, old_reach.max(new_reach) + 1, size.height) {
        let dy = row.abs_diff(change.y);
        let reached = ReachedRow {
            size,
            change,
            row,
            old: Given::in_row(old, old_share, dy),
            new: Given::in_row(new, new_share, dy),
        };
        reached.mend(sums, values, mattes);
    }
}
