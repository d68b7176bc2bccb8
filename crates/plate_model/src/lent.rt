// What calls are given, and the lengths of what they are lent.
use kernels_model::shape::Shape;

// What a put asks for: a place, and a pixel, with no shape where its number names none.
#[derive(Clone, Copy, Debug, PartialEq, Eq)]
pub struct Ask {
    pub x: usize,
    pub y: usize,
    pub value: u16,
    pub opacity: u8,
    pub shape: Option<Shape>,
    pub radius: u8,
}

// The lengths of planes, pixels and log.
#[derive(Clone, Copy, Debug, PartialEq, Eq)]
pub struct LentLengths {
    pub planes: usize,
    pub pixels: usize,
    pub log: usize,
}
