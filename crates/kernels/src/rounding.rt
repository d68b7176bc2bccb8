// Rounding to the nearest: a half upwards, and for the shown value a half to even.
ghost use Rattle.std.specs.Prelude.{◌≡◌, ◌<◌};
ghost use Rattle.kernels_model.specs.Rounding.{nearest, nearest_even, shown_value, shown_matte};

use kernels_model::fixed::{MATTE_TOP, MATTE_UNIT, VALUE_TOP};

// a / b to the nearest, a half upwards. Nothing is doubled, so nothing wraps: the rest is at least a half where it is not
// below what it lacks.
#[tactic(auto, using(crate::proofs::Laws::Rounding::rounding_laws))]
pub(crate) fn rounded(a: u64, b: u64) -> u64
    requires { 0 < b }
    ensures { result ≡ nearest a b }
{
    let q = a / b;
    let rest = a % b;
    if rest < b - rest { q } else { q + 1 }
}

// light / matte to the nearest, a half to even. The rest counts one more where the quotient is odd, so a half goes up there
// alone. Nothing is doubled here either, and a rest is below matte, so nothing wraps.
#[tactic(auto, using(crate::proofs::Laws::Rounding::rounding_laws))]
fn rounded_even(light: u64, matte: u64) -> u64
    requires { 0 < matte }
    ensures { result ≡ nearest_even light matte }
{
    let q = light / matte;
    let rest = light % matte;
    if matte - rest < rest + q % 2 {
        q + 1
    } else {
        q
    }
}

// The value that a cell shows: its light for each part of its matte.
#[tactic(auto, using(crate::proofs::Laws::Rounding::rounding_laws))]
pub fn shown_value(light: u64, matte: u64) -> u16
    ensures { result ≡ shown_value light matte }
{
    if matte == 0 {
        0
    } else {
        rounded_even(light, matte).min(u64::from(VALUE_TOP)) as u16
    }
}

// The least matte sum that shows the top without rounding, and half of what a shown matte is counted in. A const calls no From, so
// it casts.
const WHOLE: u64 = MATTE_TOP as u64 * MATTE_UNIT;

const HALF: u64 = MATTE_UNIT / 2;

// The matte that a cell shows. Below the whole, adding a half does not wrap, and from there on it is the top.
#[tactic(auto, unfolding(kernels_model::specs::Rounding::shown_matte, kernels_model::specs::Rounding::nearest))]
pub fn shown_matte(matte: u64) -> u8
    ensures { result ≡ shown_matte matte }
{
    if matte < WHOLE {
        ((matte + HALF) / MATTE_UNIT) as u8
    } else {
        MATTE_TOP
    }
}
