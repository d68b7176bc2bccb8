// The light and matte that a plate holds in all: the finished cells of the two padded channels, added up. The sums of a row are
// show's; here the channels go one after the other, since the scratch of a small plate has no room for all columns of both.
ghost use Rattle.std.specs.Prelude.{◌≡◌, ◌+◌, ◌%◌, ◌^◌, sum};
ghost use Rattle.plate_model.specs.Total.{totalled, total_call};
ghost use Rattle.plate.specs.Passes.{ChannelIn};
ghost use Rattle.plate.specs.Totalling.{whole_channel, AddedUp, TotalReady, TotalDone};

use crate::check::check_total;
use crate::pass::Channel;
use crate::size::{Frame, PlateSize};
use crate::state::{accepted, refused};
use kernels_model::fixed::PLANES_EACH;
use plate_model::state::State;
use plate_model::total::Totals;

// Cells added to a sum.
fn add_cells(cells: &[u64], to: u64) -> u64
    ensures { result ≡ (to + sum cells.now) % 2 ^ 64 }
{
    let mut sum = to;
    for cell in cells {
        sum = sum.wrapping_add(*cell);
    }
    sum
}

// All finished cells of the channel whose marks start at `marks`, added up row by row, to the last one.
fn add_up(scratch: &mut [u64], planes: &[u64], frame: Frame, marks: usize) -> u64
    requires { ChannelIn (whole_channel frame marks) scratch.old planes.now }
    ensures { AddedUp (whole_channel frame marks) planes.now scratch.old scratch.new
        frame.high result }
{
    let columns = frame.wide;
    let high = frame.high;
    let channel = Channel {
        columns,
        wide: columns,
        high,
        sums: 0,
        marks,
    };
    channel.start_sums(scratch, planes);
    let down = channel.starts_at(0).down;
    let mut sum = 0;
    for row in 0..high {
        channel.sum_next(scratch, planes, row);
        sum = add_cells(&scratch[down..down + columns], sum);
    }
    sum
}

// A total that nothing refuses.
fn total_all(state: State, planes: &[u64], scratch: &mut [u64]) -> Totals
    requires { TotalReady state.size planes.now scratch.old }
    ensures { TotalDone state planes.now scratch.old scratch.new result }
{
    let frame = PlateSize { size: state.size }.frame();
    let light = add_up(scratch, planes, frame, 0);
    let matte = add_up(scratch, planes, frame, PLANES_EACH * frame.padded);
    scratch.fill(0);
    Totals {
        answer: accepted(0, state),
        matte,
        light,
    }
}

// The sums of finished matte and of finished light over all padded cells, wrapped, and the scratch cleared; or a refusal, no
// sums, and nothing is touched.
pub fn total(state: State, planes: &[u64], scratch: &mut [u64]) -> Totals
    ensures { totalled result scratch.new ≡ total_call state planes.now scratch.old }
{
    let outcome = check_total(state.size, planes.len(), scratch.len());
    if let Err(why) = outcome {
        return Totals {
            answer: refused(why, state),
            matte: 0,
            light: 0,
        };
    }
    total_all(state, planes, scratch)
}
