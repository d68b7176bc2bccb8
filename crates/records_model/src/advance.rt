// What a part of the input leaves.
use crate::machine::Machine;

// What a part leaves: the machine, how many bytes of the part were taken, and how many of text stand at the start of what was
// lent for it.
#[derive(Clone, Copy, Debug, PartialEq, Eq)]
pub struct Advanced {
    pub machine: Machine,
    pub consumed: usize,
    pub written: usize,
}
