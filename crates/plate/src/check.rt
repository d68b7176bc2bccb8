// What a call checks before it touches anything, by the table of refusals. Lengths come as numbers, and any number may come.
ghost use Rattle.std.specs.Prelude.{◌≡◌, Ok};
ghost use Rattle.plate_model.specs.Refusal.{sizes_check, length_check, lent_check, count_check, plate_check, ask_check, inputs_check};
ghost use Rattle.plate_model.specs.Refusal.{open_check, undo_check, total_check, show_check, sums_check, show_kept_check, kept_check};
ghost use Rattle.plate_model.specs.Layout.{places};
ghost use Rattle.plate_model.specs.Asked.{asked_pixel};
ghost use Rattle.plate.specs.Asking.{pixel_by, pixel_read};
ghost use Rattle.plate.specs.Filling.{fill_lengths};

use crate::size::PlateSize;
use kernels_model::fixed::VALUE_TOP;
use plate_model::fixed::{LOG_TOP, PLACES_TOP, PLANES, REACH_TOP, SCRATCH_PLANES, SIDE_TOP};
use plate_model::lent::{Ask, LentLengths};
use plate_model::size::Size;
use plate_model::state::{Outcome, Refusal, State};
use plate_model::word::Pixel;

// 1: whether a plate can have these sizes.
#[tactic(auto, using(plate_model::proofs::Checks::Conditions::tests), unfolding(plate_model::specs::Refusal::refuse_if, plate_model::specs::Refusal::sizes_check))]
fn check_sizes(size: Size) -> Outcome
    ensures { result ≡ sizes_check size (Ok tt) }
{
    if size.width < 1 || SIDE_TOP < size.width || size.height < 1 || SIDE_TOP < size.height {
        return Err(Refusal::Sizes);
    }
    if PLACES_TOP < size.width * size.height || REACH_TOP < size.reach {
        return Err(Refusal::Sizes);
    }
    Ok(())
}

// 2: one length.
#[tactic(auto, using(plate_model::proofs::Checks::Conditions::tests), unfolding(plate_model::specs::Refusal::refuse_if))]
fn check_length(length: usize, wanted: usize) -> Outcome
    ensures { result ≡ length_check length wanted (Ok tt) }
{
    if length != wanted {
        return Err(Refusal::Lengths);
    }
    Ok(())
}

// 2: the lengths of planes, pixels and log.
fn check_lent(size: PlateSize, lent: LentLengths) -> Outcome
    ensures { result ≡ lent_check size.size lent (Ok tt) }
{
    let frame = size.frame();
    check_length(lent.planes, PLANES * frame.padded)?;
    check_length(lent.pixels, frame.places)?;
    if LOG_TOP < lent.log {
        return Err(Refusal::Lengths);
    }
    Ok(())
}

// 1 and 2, all that an open checks, and the first that put, undo and fill check.
pub(crate) fn check_open(size: Size, lent: LentLengths) -> Outcome
    ensures { result ≡ open_check size lent }
{
    check_sizes(size)?;
    check_lent(PlateSize { size }, lent)
}

// 3: the log count.
#[tactic(auto, using(plate_model::proofs::Checks::Conditions::tests), unfolding(plate_model::specs::Refusal::refuse_if))]
fn check_count(count: usize, log: usize) -> Outcome
    ensures { result ≡ count_check count log (Ok tt) }
{
    if log < count {
        return Err(Refusal::LogCount);
    }
    Ok(())
}

// 1 to 3, the first that put and undo check.
fn check_plate(state: State, lent: LentLengths) -> Outcome
    ensures { result ≡ plate_check state lent (Ok tt) }
{
    check_open(state.size, lent)?;
    check_count(state.count, lent.log)
}

// 4 to 8: the arguments of a put, whose opacity is always lawful.
#[tactic(auto, using(plate_model::proofs::Checks::Conditions::tests), unfolding(plate_model::specs::Refusal::refuse_if, plate_model::specs::Refusal::ask_check, plate_model::specs::Refusal::place_check, plate_model::specs::Refusal::shape_check, plate_model::specs::Refusal::radius_check))]
fn check_ask(state: State, ask: Ask, log: usize) -> Result<Pixel, Refusal>
    ensures { result ≡ pixel_by (ask_check state.size state.count log ask) (asked_pixel ask) }
{
    if state.size.width <= ask.x || state.size.height <= ask.y {
        return Err(Refusal::Place);
    }
    if VALUE_TOP < ask.value {
        return Err(Refusal::Value);
    }
    let shape = ask.shape.ok_or(Refusal::UnknownShape)?;
    if kernels::shape::top_under(shape, state.size.reach) < ask.radius {
        return Err(Refusal::LargeRadius);
    }
    if state.count == log {
        return Err(Refusal::LogFull);
    }
    Ok(Pixel {
        value: ask.value,
        opacity: ask.opacity,
        shape,
        radius: ask.radius,
    })
}

// All that a put checks but for the stored word.
pub(crate) fn check_put(state: State, ask: Ask, lent: LentLengths) -> Result<Pixel, Refusal>
    ensures { result ≡ pixel_read state ask lent }
{
    check_plate(state, lent)?;
    check_ask(state, ask, lent.log)
}

// All that an undo checks but for the stored entry and word.
pub(crate) fn check_undo(state: State, lent: LentLengths) -> Outcome
    ensures { result ≡ undo_check state lent }
{
    check_plate(state, lent)?;
    if state.count == 0 {
        return Err(Refusal::LogEmpty);
    }
    Ok(())
}

// 2: the lengths of fill's three inputs.
fn check_inputs(size: PlateSize, values: usize, opacities: usize, depths: usize) -> Outcome
    ensures { result ≡ inputs_check size.size values opacities depths (Ok tt) }
{
    let places = size.places();
    check_length(values, places)?;
    check_length(opacities, places)?;
    check_length(depths, places)
}

// 1 to 3: what a fill checks before it reads its inputs.
pub(crate) fn check_fill(
    state: State,
    lent: LentLengths,
    values: usize,
    opacities: usize,
    depths: usize,
) -> Outcome
    ensures { result ≡ fill_lengths state lent values opacities depths }
{
    check_open(state.size, lent)?;
    check_inputs(PlateSize { size: state.size }, values, opacities, depths)?;
    check_count(state.count, lent.log)
}

// 1 and 2, all that a total checks, and the first that a show checks.
pub(crate) fn check_total(size: Size, planes: usize, scratch: usize) -> Outcome
    ensures { result ≡ total_check size planes scratch }
{
    check_sizes(size)?;
    let frame = PlateSize { size }.frame();
    check_length(planes, PLANES * frame.padded)?;
    check_length(scratch, SCRATCH_PLANES * frame.padded)
}

// 2: the lengths of the two pictures.
fn check_pictures(size: PlateSize, values: usize, mattes: usize) -> Outcome
    ensures { result ≡ length_check values (places size.size) (length_check mattes (places size.size) (Ok tt)) }
{
    let places = size.places();
    check_length(values, places)?;
    check_length(mattes, places)
}

// 1 and 2, all that a show checks.
pub(crate) fn check_show(
    state: State,
    planes: usize,
    scratch: usize,
    values: usize,
    mattes: usize,
) -> Outcome
    ensures { result ≡ show_check state planes scratch values mattes }
{
    check_total(state.size, planes, scratch)?;
    check_pictures(PlateSize { size: state.size }, values, mattes)
}

// 1, and 2 for kept sums.
fn check_sums(size: Size, sums: usize) -> Outcome
    ensures { result ≡ sizes_check size (sums_check size sums (Ok tt)) }
{
    check_sizes(size)?;
    check_length(sums, 2 * PlateSize { size }.places())
}

// 1 and 2, all that a show that keeps its sums checks.
pub(crate) fn check_show_kept(
    state: State,
    planes: usize,
    scratch: usize,
    values: usize,
    mattes: usize,
    sums: usize,
) -> Outcome
    ensures { result ≡ show_kept_check state planes scratch values mattes sums }
{
    check_sums(state.size, sums)?;
    check_show(state, planes, scratch, values, mattes)
}

// 1, and 2 for kept sums and pictures: what the second forms of put and undo check before what the first forms do.
pub(crate) fn check_kept(size: Size, sums: usize, values: usize, mattes: usize) -> Outcome
    ensures { result ≡ kept_check size sums values mattes }
{
    check_sums(size, sums)?;
    check_pictures(PlateSize { size }, values, mattes)
}
