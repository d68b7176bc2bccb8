// A kernel's share and its remainder, and the table of all of them.
use crate::fixed::TABLE_NUMBERS;

// What a pixel of opacity 1 adds for each tap, and what it adds at the centre besides: the part that is lost by rounding the
// share down.
#[derive(Clone, Copy, Debug, PartialEq, Eq)]
pub struct Share {
    pub each: u32,
    pub rest: u32,
}

// For each shape one row for each radius, from radius 0 on, of two numbers: share and remainder, both 0 above the shape's top. One
// list of numbers and not of shares, since share_table in specs/Share.antt, and the contract of `shares` with it, says it so.
pub type Table = [u32; TABLE_NUMBERS];
