// What a put or an undo is to change.
use crate::word::Pixel;

// A place with its column and row, the pixel that stands there, and the one that is to come.
#[derive(Clone, Copy, Debug, PartialEq, Eq)]
pub struct Change {
    pub place: usize,
    pub x: usize,
    pub y: usize,
    pub old: Pixel,
    pub new: Pixel,
}
