// A kernel's marks as they are handed out: a grid of boxes, or two lines by the ends of their pieces.

// Boxes convolved: count + 1 marks along each axis, a side apart, in one plane.
#[derive(Clone, Copy, Debug, PartialEq, Eq)]
pub struct Boxes {
    pub plane: usize,
    pub count: usize,
    pub side: usize,
}

// The rows of a line: where its first piece starts, where it is level, and a step past its last column.
#[derive(Clone, Copy, Debug, PartialEq, Eq)]
pub struct Line {
    pub edge: usize,
    pub level: usize,
    pub past: usize,
}

// Two lines: the planes of their sloping pieces, whether a level piece lies between them, the columns where the pieces end,
// and the rows of each line. The diamond's lines have no level piece, and go back where they turn: the last piece starts at back
// either way, so no Option holds it.
#[derive(Clone, Copy, Debug, PartialEq, Eq)]
pub struct Outline {
    pub rising: usize,
    pub falling: usize,
    pub flat: bool,
    pub left: usize,
    pub turn: usize,
    pub back: usize,
    pub right: usize,
    pub top: Line,
    pub bottom: Line,
}

#[derive(Clone, Copy, Debug, PartialEq, Eq)]
pub enum Drawing {
    Grid(Boxes),
    Lines(Outline),
}
