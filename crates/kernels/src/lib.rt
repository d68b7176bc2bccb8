// The kernels of the lens: shapes, shares, marks, the radius from depth, and rounding. Knows nothing of plates.
#![tactic(auto)]

pub mod band;
pub mod lens;
pub mod mark;
pub mod rounding;
pub mod shape;
pub mod share;

pub use kernels_model::band::Band;
pub use kernels_model::lens::{Lens, RadiusError};
pub use kernels_model::mark::{Boxes, Drawing, Line, Outline};
pub use kernels_model::shape::{Shape, UnknownShape};
pub use kernels_model::share::{Share, Table};
