// The sizes of a plate, and the frame of its planes that follows from them.

// What an open is given.
#[derive(Clone, Copy, Debug, Default, PartialEq, Eq)]
pub struct Size {
    pub width: usize,
    pub height: usize,
    pub reach: usize,
}
