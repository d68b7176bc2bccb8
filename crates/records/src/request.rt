// What a record asks of the plate. There is one path to it: the call is lent the front of planes and pixels.
ghost use Rattle.std.specs.Prelude.{◌≡◌, length};
ghost use Rattle.plate_model.specs.Calls.{leaves, shows};
ghost use Rattle.plate_model.specs.Lent.{lent_at_entry, lent_at_exit, views_at_entry, views_at_exit};
ghost use Rattle.records_model.specs.Fixed.{planes_room};
ghost use Rattle.records_model.specs.Machine.{lent_cells, lent_places, put_request, request_size, request_call, requested};
ghost use Rattle.records_model.specs.Machine.{show_requested};
ghost use Rattle.records.specs.Room.{CountedFor};

use plate::{Answer, Ask, Lent, Size, State};
use plate_model::fixed::{BORDER, PLANES, SCRATCH_PLANES};
use records_model::fixed::{CELLS, Log, Mattes, Pixels, Planes, Scratch, Values};
use records_model::request::{PutRequest, Request};

// The cells of a padded plane and the places of a plate.
#[derive(Clone, Copy, Default)]
pub(crate) struct LentCounts {
    pub cells: usize,
    pub places: usize,
}

// None where the cells are more than there is room for. A side that is too long makes too many of them, so the product fits.
fn counts(size: Size) -> Option<LentCounts>
    ensures { CountedFor size result }
{
    if CELLS < size.width.max(size.height).max(size.reach) {
        return None;
    }
    let border = 2 * size.reach + BORDER;
    let cells = (size.width + border) * (size.height + border);
    if CELLS < cells {
        return None;
    }
    Some(LentCounts {
        cells,
        places: size.width * size.height,
    })
}

// A plate that there is no room for is lent nothing, and refuses that.
fn room(size: Size) -> LentCounts
    ensures { (result.cells ≡ lent_cells size) × (result.places ≡ lent_places size) }
{
    counts(size).unwrap_or_default()
}

// A put.
pub(crate) fn put_request(state: State, ask: Ask) -> Request
    ensures { result ≡ put_request state ask }
{
    Request::ToPut(PutRequest { state, ask })
}

// The sizes of the plate that is asked.
fn size_of(request: Request) -> Size
    ensures { result ≡ request_size request }
{
    match request {
        Request::ToOpen(size) => size,
        Request::ToPut(put) => put.state.size,
        Request::ToUndo(state) => state.size,
    }
}

// The call of the plate, on just what it wants.
#[tactic(auto, unfolding(records_model::specs::Machine::request_call))]
fn call(request: Request, planes: &mut [u64], pixels: &mut [u64], log: &mut [u64]) -> Answer
    ensures { leaves result (lent_at_exit planes pixels log) ≡ request_call request (lent_at_entry planes pixels log) }
{
    let mut lent = Lent {
        planes,
        pixels,
        log,
    };
    match request {
        Request::ToOpen(size) => lent.open(size.width, size.height, size.reach),
        Request::ToPut(put) => lent.put_asked(put.state, put.ask),
        Request::ToUndo(state) => lent.undo(state),
    }
}

// The same on the front of the buffers. They come one by one, since a part of an array behind a struct's field is not lent.
pub(crate) fn call_on_front(
    request: Request,
    planes: &mut Planes,
    pixels: &mut Pixels,
    log: &mut Log,
) -> Answer
    ensures { leaves result (lent_at_exit planes pixels log) ≡ requested request (lent_at_entry planes pixels log) }
{
    let lent = room(size_of(request));
    let cells = PLANES * lent.cells;
    call(
        request,
        &mut planes[..cells],
        &mut pixels[..lent.places],
        log,
    )
}

// And a show. It says how long its planes are, since no proof reads that from an array behind a struct's field.
pub(crate) fn show_on_front(
    state: State,
    planes: &Planes,
    scratch: &mut Scratch,
    values: &mut Values,
    mattes: &mut Mattes,
) -> Answer
    ensures shown { shows result (views_at_exit scratch values mattes)
        ≡ show_requested state planes.now (views_at_entry scratch values mattes) }
    ensures planes_are { length planes.now ≡ planes_room }
{
    let lent = room(state.size);
    let cells = PLANES * lent.cells;
    let sums = SCRATCH_PLANES * lent.cells;
    plate::show::show(
        state,
        &planes[..cells],
        &mut scratch[..sums],
        &mut values[..lent.places],
        &mut mattes[..lent.places],
    )
}
