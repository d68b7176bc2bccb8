// The plate's numbers of the paper that stand in more than one place, each named once, as in specs/Fixed.antt.
use kernels_model::fixed::{MARGIN, PLANES_EACH};

// The planes of both pictures: light's, then matte's.
pub const PLANES: usize = 2 * PLANES_EACH;

// What the two margins add to a side of a padded plane.
pub const BORDER: usize = 2 * MARGIN;

// A scratch has as many cells as this many planes.
pub const SCRATCH_PLANES: usize = 3;

pub const SIDE_TOP: usize = 4096;

pub const PLACES_TOP: usize = 2097152;

pub const REACH_TOP: usize = 64;

pub const LOG_TOP: usize = 65535;

// The bits of a pixel's word. A log entry has the place above them.
pub const WORD_BITS: u64 = 32;

pub const WORD_MASK: u64 = (1 << WORD_BITS) - 1;
