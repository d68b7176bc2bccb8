// The paper's numbers that stand in more than one place, each named once, as in specs/Fixed.antt.

// What a kernel's shares and its remainder are parts of.
pub const UNIT: u32 = 8388608;

// What a shown matte is counted in.
pub const MATTE_UNIT: u64 = 8388608;

// The radii of a shape in the table of shares, 0 to 64; its shapes, its rows, its columns, and all its numbers.
pub const RADII: usize = 65;

pub const SHAPES: usize = 6;

pub const TABLE_ROWS: usize = SHAPES * RADII;

pub const TABLE_COLUMNS: usize = 2;

pub const TABLE_NUMBERS: usize = TABLE_COLUMNS * TABLE_ROWS;

// The marks of a kernel's centre.
pub const CENTRE_MARKS: u32 = 4;

// The planes of a picture: slopes −2, −1, 0, 1, 2, second box, third box; and the places of three of them in that order.
pub const PLANES_EACH: usize = 7;

pub const LEVEL: usize = 2;

pub const SECOND_BOX: usize = 5;

pub const THIRD_BOX: usize = 6;

// How much further than a kernel reaches its marks may lie.
pub const MARGIN: usize = 3;

pub const VALUE_TOP: u16 = 4095;

pub const MATTE_TOP: u8 = 255;

pub const DEPTH_TOP: u32 = 10000000;
