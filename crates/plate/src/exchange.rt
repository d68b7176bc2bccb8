// One pixel put in the place of another: what a put and an undo have in common.
ghost use Rattle.std.specs.Prelude.{◌≡◌, ◌<◌, length};
ghost use Rattle.plate_model.specs.Marks.{exchanged};
ghost use Rattle.plate_model.specs.Ready.{Changeable};
ghost use Rattle.plate.specs.Exchange.{Changed};

use crate::lay::{MINUS_ONE, Site};
use crate::size::PlateSize;
use crate::word::pack;
use kernels::shape::mark_count;
use kernels::share::share_of;
use plate_model::change::Change;
use plate_model::size::Size;

// Takes the marks of the old pixel off, and lays those of the new one.
fn exchange_marks(planes: &mut [u64], size: Size, change: Change)
    requires { Changeable size change (length planes.old) }
    ensures { planes.new ≡ exchanged size change.place change.old change.new planes.old }
{
    let site = Site {
        frame: PlateSize { size }.frame(),
        x: change.x,
        y: change.y,
    };
    let old = change.old;
    let new = change.new;
    let old_share = share_of(old.shape, old.radius);
    let new_share = share_of(new.shape, new.radius);
    site.lay_pixel(planes, old, old_share, MINUS_ONE);
    site.lay_pixel(planes, new, new_share, 1);
}

// Replaces a pixel, its marks and its word, and answers the marks moved.
pub(crate) fn exchange(size: Size, change: Change, planes: &mut [u64], pixels: &mut [u64]) -> u32
    requires changeable { Changeable size change (length planes.old) }
    requires place_in_bounds { change.place < length pixels.old }
    ensures { Changed size change planes.old pixels.old result planes.new
        pixels.new }
{
    exchange_marks(planes, size, change);
    pixels[change.place] = pack(change.new);
    mark_count(change.old.shape) + mark_count(change.new.shape)
}
