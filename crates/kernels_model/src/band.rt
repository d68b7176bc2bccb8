// A row of a kernel.
use crate::shape::Shape;

// One row of a kernel: the taps of some boxes convolved on one axis, times the row's own tap; what a tap is worth, and what the
// middle has besides.
#[derive(Clone, Copy, Debug, PartialEq, Eq)]
pub struct Band {
    // says how many boxes: 1 for shapes of ones
    pub shape: Shape,
    // the radius of these boxes
    pub radius: u8,
    // the cells from the middle on that have a tap other than 0
    pub span: usize,
    // the row's own tap; 0 where the row has none
    pub own: u8,
    // the share
    pub each: u32,
    // the remainder in the kernel's middle row, else 0
    pub rest: u32,
}
