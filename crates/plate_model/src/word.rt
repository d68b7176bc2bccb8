// A pixel and a log entry.
use kernels_model::shape::Shape;

#[derive(Clone, Copy, Debug, PartialEq, Eq)]
pub struct Pixel {
    pub value: u16,
    pub opacity: u8,
    pub shape: Shape,
    pub radius: u8,
}

// A pixel that a put replaced, and its place.
#[derive(Clone, Copy, Debug, PartialEq, Eq)]
pub struct Entry {
    pub place: usize,
    pub pixel: Pixel,
}
