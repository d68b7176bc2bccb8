// The inputs of a fill scanned for a number that no pixel can have, up to the first.
ghost use Rattle.std.specs.Prelude.{◌≡◌, ℕ, ◌≤◌, false, slice_index};
ghost use Rattle.kernels_model.specs.Fixed.{value_top};
ghost use Rattle.plate_model.specs.Refusal.{any_of, any_above, is_between};
ghost use Rattle.plate.specs.Filling.{number_top};

use kernels_model::fixed::VALUE_TOP;

// 5: whether a value is above its top.
pub(crate) fn value_above(values: &[u16]) -> bool
    ensures { result ≡ any_above value_top values.now }
{
    values.iter().any(|&value| VALUE_TOP < value)
}

// Whether one of the depths is above the one bound and not above the other. Any depth is a number of 32 bits.
pub(crate) fn depth_between(depths: &[u32], above: u32, most: u32) -> bool
    ensures value { result ≡ any_of (is_between above most) depths.now }
    ensures i_bound { result ≡ false → (i : ℕ) → slice_index depths.now i ≤ number_top }
{
    depths.iter().any(|&depth| above < depth && depth <= most)
}
