// The C interface of the plate: the same calls in the same order, a slice as pointer then length. include/lens.h declares it.
#![tactic(auto)]

ghost use Rattle.std.specs.Prelude.{◌≡◌};
ghost use Rattle.plate_model.specs.Layout.{size_from};
ghost use Rattle.plate_model.specs.Lent.{ask, inputs, lent_at_entry, lent_at_exit, views_at_entry, views_at_exit, canvas_at_entry};
ghost use Rattle.plate_model.specs.Lent.{canvas_at_exit};
ghost use Rattle.plate_model.specs.Refusal.{returned};
ghost use Rattle.plate_model.specs.Calls.{open_call, put_call, undo_call, fill_call, show_call};
ghost use Rattle.plate_model.specs.Kept.{put_kept_call, undo_kept_call, show_kept_call};
ghost use Rattle.plate_model.specs.Total.{total_call};
ghost use Rattle.lens_c.specs.Interface.{state_in, state_out, lens_in, answer_out, left_out, shown_out, leaves_out, shows_out, refreshed_out};
ghost use Rattle.lens_c.specs.Interface.{leaves_kept_out, shown_kept_out, shows_kept_out, totals_out, totals_and_scratch};
ghost use Rattle.lens_c.specs.Interface.{totalled_out};

use plate::{Answer, Lens, Lent, Size, State, Totals};

#[repr(C)]
#[derive(Drop)]
pub struct LensState {
    pub width: usize,
    pub height: usize,
    pub reach: usize,
    pub count: usize,
}

#[repr(C)]
#[derive(Drop)]
pub struct LensLens {
    pub opening: u32,
    pub focal: u32,
    pub focus: u32,
    pub pitch: u32,
}

#[repr(C)]
#[derive(Drop)]
pub struct LensAnswer {
    pub number: u32,
    pub marks: u32,
    pub state: LensState,
}

#[repr(C)]
#[derive(Drop)]
pub struct LensTotals {
    pub answer: LensAnswer,
    pub matte: u64,
    pub light: u64,
}

impl From<LensState> for State {
    ghost from_gives = { λ s t. t ≡ state_in s };

    fn from(s: LensState) -> State {
        State {
            size: Size {
                width: s.width,
                height: s.height,
                reach: s.reach,
            },
            count: s.count,
        }
    }
}

impl From<State> for LensState {
    ghost from_gives = { λ s t. t ≡ state_out s };

    fn from(s: State) -> LensState {
        LensState {
            width: s.size.width,
            height: s.size.height,
            reach: s.size.reach,
            count: s.count,
        }
    }
}

impl From<LensLens> for Lens {
    ghost from_gives = { λ l m. m ≡ lens_in l };

    fn from(l: LensLens) -> Lens {
        Lens {
            opening: l.opening,
            focal: l.focal,
            focus: l.focus,
            pitch: l.pitch,
        }
    }
}

// An answer in the paper's numbers.
impl From<Answer> for LensAnswer {
    ghost from_gives = { λ a b. b ≡ answer_out (returned a) };

    fn from(a: Answer) -> LensAnswer {
        LensAnswer {
            number: plate::state::number(a.outcome),
            marks: a.marks,
            state: a.state.into(),
        }
    }
}

impl From<Totals> for LensTotals {
    ghost from_gives = { λ t u. u ≡ totals_out (returned t.answer) t.matte t.light };

    fn from(t: Totals) -> LensTotals {
        LensTotals {
            answer: t.answer.into(),
            matte: t.matte,
            light: t.light,
        }
    }
}

#[unsafe(no_mangle)]
pub extern "C" fn lens_open(
    width: usize,
    height: usize,
    reach: usize,
    planes: &mut [u64],
    pixels: &mut [u64],
    log: &mut [u64],
) -> LensAnswer
    ensures { leaves_out result (lent_at_exit planes pixels log)
        ≡ left_out (open_call (size_from width height reach) (lent_at_entry planes pixels log)) }
{
    let mut lent = Lent {
        planes,
        pixels,
        log,
    };
    lent.open(width, height, reach).into()
}

#[unsafe(no_mangle)]
pub extern "C" fn lens_put(
    state: LensState,
    x: usize,
    y: usize,
    value: u16,
    opacity: u8,
    shape: u8,
    radius: u8,
    planes: &mut [u64],
    pixels: &mut [u64],
    log: &mut [u64],
) -> LensAnswer
    ensures { leaves_out result (lent_at_exit planes pixels log)
        ≡ left_out (put_call (state_in state) (ask x y value opacity shape radius) (lent_at_entry planes pixels log)) }
{
    let mut lent = Lent {
        planes,
        pixels,
        log,
    };
    lent.put(state.into(), x, y, value, opacity, shape, radius)
        .into()
}

#[unsafe(no_mangle)]
pub extern "C" fn lens_undo(
    state: LensState,
    planes: &mut [u64],
    pixels: &mut [u64],
    log: &mut [u64],
) -> LensAnswer
    ensures { leaves_out result (lent_at_exit planes pixels log)
        ≡ left_out (undo_call (state_in state) (lent_at_entry planes pixels log)) }
{
    let mut lent = Lent {
        planes,
        pixels,
        log,
    };
    lent.undo(state.into()).into()
}

#[unsafe(no_mangle)]
pub extern "C" fn lens_fill(
    state: LensState,
    lens: LensLens,
    shape: u8,
    values: &[u16],
    opacities: &[u8],
    depths: &[u32],
    planes: &mut [u64],
    pixels: &mut [u64],
    log: &mut [u64],
) -> LensAnswer
    ensures { leaves_out result (lent_at_exit planes pixels log)
        ≡ left_out
        (fill_call (state_in state) (lens_in lens) shape
        (inputs values.now opacities.now depths.now)
        (lent_at_entry planes pixels log)) }
{
    let mut lent = Lent {
        planes,
        pixels,
        log,
    };
    lent.fill(state.into(), lens.into(), shape, values, opacities, depths)
        .into()
}

#[unsafe(no_mangle)]
pub extern "C" fn lens_show(
    state: LensState,
    planes: &[u64],
    scratch: &mut [u64],
    values: &mut [u16],
    mattes: &mut [u8],
) -> LensAnswer
    ensures { shows_out result (views_at_exit scratch values mattes)
        ≡ shown_out (show_call (state_in state) planes.now (views_at_entry scratch values mattes)) }
{
    plate::show::show(state.into(), planes, scratch, values, mattes).into()
}

#[unsafe(no_mangle)]
pub extern "C" fn lens_show_kept(
    state: LensState,
    planes: &[u64],
    scratch: &mut [u64],
    values: &mut [u16],
    mattes: &mut [u8],
    sums: &mut [u64],
) -> LensAnswer
    ensures { shows_kept_out result (views_at_exit scratch values mattes) sums.new
        ≡ shown_kept_out
        (show_kept_call (state_in state) planes.now (views_at_entry scratch values mattes) sums.old) }
{
    plate::kept::show_kept(state.into(), planes, scratch, values, mattes, sums).into()
}

#[unsafe(no_mangle)]
pub extern "C" fn lens_put_kept(
    state: LensState,
    x: usize,
    y: usize,
    value: u16,
    opacity: u8,
    shape: u8,
    radius: u8,
    planes: &mut [u64],
    pixels: &mut [u64],
    log: &mut [u64],
    sums: &mut [u64],
    values: &mut [u16],
    mattes: &mut [u8],
) -> LensAnswer
    ensures { leaves_kept_out result (lent_at_exit planes pixels log) (canvas_at_exit sums values mattes)
        ≡ refreshed_out
        (put_kept_call (state_in state) (ask x y value opacity shape radius) (lent_at_entry planes pixels log)
        (canvas_at_entry sums values mattes)) }
{
    let mut lent = Lent {
        planes,
        pixels,
        log,
    };
    lent.put_kept(
        state.into(),
        x,
        y,
        value,
        opacity,
        shape,
        radius,
        sums,
        values,
        mattes,
    )
    .into()
}

#[unsafe(no_mangle)]
pub extern "C" fn lens_undo_kept(
    state: LensState,
    planes: &mut [u64],
    pixels: &mut [u64],
    log: &mut [u64],
    sums: &mut [u64],
    values: &mut [u16],
    mattes: &mut [u8],
) -> LensAnswer
    ensures { leaves_kept_out result (lent_at_exit planes pixels log) (canvas_at_exit sums values mattes)
        ≡ refreshed_out (undo_kept_call (state_in state) (lent_at_entry planes pixels log) (canvas_at_entry sums values mattes)) }
{
    let mut lent = Lent {
        planes,
        pixels,
        log,
    };
    lent.undo_kept(state.into(), sums, values, mattes).into()
}

#[unsafe(no_mangle)]
pub extern "C" fn lens_total(state: LensState, planes: &[u64], scratch: &mut [u64]) -> LensTotals
    ensures { totals_and_scratch result scratch.new
        ≡ totalled_out (total_call (state_in state) planes.now scratch.old) }
{
    plate::total::total(state.into(), planes, scratch).into()
}
