// The plate: a sharp layer's pixels as marks in planes. Knows nothing of records.
#![tactic(auto)]

mod change;
mod check;
mod clear;
mod exchange;
mod fill;
pub mod kept;
mod lay;
mod layer;
mod lent;
mod mend;
mod open;
mod pass;
mod put;
mod scan;
pub mod show;
mod size;
pub mod state;
pub mod total;
mod undo;
mod word;

pub use crate::lent::Lent;
pub use kernels_model::lens::Lens;
pub use kernels_model::shape::{Shape, UnknownShape};
pub use plate_model::lent::Ask;
pub use plate_model::size::Size;
pub use plate_model::state::{Answer, Outcome, Refusal, State};
pub use plate_model::total::Totals;
