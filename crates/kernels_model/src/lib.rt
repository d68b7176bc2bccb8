// The kernels, as they are defined: their numbers and types, the definitions and the statements, and their proofs. No function but
// those that convert the types.
#![tactic(auto)]

pub mod band;
pub mod fixed;
pub mod lens;
pub mod mark;
pub mod shape;
pub mod share;
