// Records, as they are defined: their numbers and types, the definitions and the statements, and their proofs. No function but
// those that convert the types.
#![tactic(auto)]

pub mod advance;
pub mod buffers;
pub mod effect;
pub mod fixed;
pub mod machine;
pub mod record;
pub mod request;
