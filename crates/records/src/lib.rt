// Records: raw bytes in, text out.
#![tactic(auto)]

pub mod advance;
mod lent;
pub mod machine;
mod perform;
mod record;
mod request;
mod text;

pub use records_model::advance::Advanced;
pub use records_model::buffers::Buffers;
pub use records_model::fixed::{Log, Mattes, Pixels, Planes, Scratch, Text, Values};
pub use records_model::machine::Machine;
