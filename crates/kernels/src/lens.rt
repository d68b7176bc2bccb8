// The radius from depth, by the thin lens formula in whole numbers.
ghost use Rattle.std.specs.Prelude.{◌≡◌, true, ◌≤◌};
ghost use Rattle.kernels_model.specs.Lens.{lawful_lens, blur, radius_answer, radius_answer_for};
ghost use Rattle.kernels_model.specs.Fixed.{depth_top};

use crate::rounding::rounded;
use kernels_model::fixed::DEPTH_TOP;
use kernels_model::lens::{Lens, RadiusError};

// The bounds of a lens's numbers.
const OPENING_TOP: u32 = 4000;

const FOCAL_TOP: u32 = 4000;

const FOCUS_TOP: u32 = 10000000;

const PITCH_TOP: u32 = 1000;

// The formula's factor: from 0.1 mm over 0.1 µm to pixels, and from a diameter to its half.
const LENS_FACTOR: u64 = 500;

// Whether a lens can be: each of its numbers in its bounds, and the focus past the focal length.
#[tactic(auto, unfolding(kernels_model::specs::Lens::lawful_lens))]
pub fn lawful_lens(l: Lens) -> bool
    ensures { result ≡ lawful_lens l }
{
    (1..=OPENING_TOP).contains(&l.opening)
        && (1..=FOCAL_TOP).contains(&l.focal)
        && l.focal < l.focus
        && l.focus <= FOCUS_TOP
        && (1..=PITCH_TOP).contains(&l.pitch)
}

// The radius that the formula gives, before any top. For a lawful lens no product is above 10^17, so none wraps.
#[tactic(auto, using(crate::proofs::Laws::Lenses::blur_laws))]
fn blurred(l: Lens, depth: u32) -> u64
    requires l_value { lawful_lens l ≡ true }
    requires depth_le_depth_top { depth ≤ depth_top }
    ensures { result ≡ blur l depth }
{
    let scale = LENS_FACTOR * u64::from(l.opening) * u64::from(l.focal);
    let pitch = u64::from(l.pitch);
    let past = u64::from(l.focus - l.focal);
    if depth == 0 {
        rounded(scale, pitch * past)
    } else {
        let z = u64::from(depth);
        rounded(scale * z.abs_diff(u64::from(l.focus)), pitch * z * past)
    }
}

// The radius of a pixel at a depth, at most the top that its shape and its plate give. Depth 0 is infinity.
#[tactic(auto, using(crate::proofs::Laws::Lenses::radius_laws), unfolding(kernels_model::specs::Lens::radius_answer))]
pub fn radius_from(l: Lens, top: u8, depth: u32) -> Result<u8, RadiusError>
    ensures { radius_answer result ≡ radius_answer_for l top depth }
{
    if !lawful_lens(l) {
        Err(RadiusError::NoLens)
    } else if DEPTH_TOP < depth {
        Err(RadiusError::NoDepth)
    } else {
        Ok(blurred(l, depth).min(u64::from(top)) as u8)
    }
}
