// The buffers of a run.
use crate::fixed::{Log, Mattes, Pixels, Planes, Scratch, Values};

// What a run keeps its plate in, and the pictures that it shows.
#[derive(Debug, PartialEq, Eq, Drop)]
pub struct Buffers {
    pub planes: Planes,
    pub pixels: Pixels,
    pub log: Log,
    pub scratch: Scratch,
    pub values: Values,
    pub mattes: Mattes,
}
