// The plate, as it is defined: its numbers and types, the definitions and the statements, and their proofs. No function but those
// that convert the types.
#![tactic(auto)]

pub mod change;
pub mod fixed;
pub mod lent;
pub mod size;
pub mod state;
pub mod total;
pub mod word;
