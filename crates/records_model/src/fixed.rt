// The record program's numbers of the paper, each named once, as in specs/Fixed.antt.
use plate_model::fixed::{PLANES, SCRATCH_PLANES};

// The cells of a padded plane, at most.
pub const CELLS: usize = 512;

pub const PLANE_CELLS: usize = PLANES * CELLS;

pub const SCRATCH_CELLS: usize = SCRATCH_PLANES * CELLS;

pub const LOG: usize = 64;

// The bytes of kind. They are numbers, as `body_length`, `record_of` and `StopsByRows` take them.
pub const OPEN: u8 = 1;

pub const PUT: u8 = 2;

pub const UNDO: u8 = 3;

pub const SHOW: u8 = 4;

// The bytes of a body.
pub const OPEN_BODY: usize = 5;

pub const PUT_BODY: usize = 9;

pub const BODY: usize = PUT_BODY;

// The bytes of a record's text: no record writes more.
pub const TEXT: usize = 4096;

// The bytes that a call is lent for its text, and how many may stand there before the next byte: the text of any record still
// fits then.
pub const BUFFER: usize = 65536;

pub const FULL: usize = BUFFER - TEXT;

// The buffers of a run, the body of a record, and what a call is lent for its text.
pub type Planes = [u64; PLANE_CELLS];

pub type Pixels = [u64; CELLS];

pub type Log = [u64; LOG];

pub type Scratch = [u64; SCRATCH_CELLS];

pub type Values = [u16; CELLS];

pub type Mattes = [u8; CELLS];

pub type Body = [u8; BODY];

pub type Text = [u8; BUFFER];
