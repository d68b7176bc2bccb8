// What a total answers.
use crate::state::Answer;

// What a plate holds in all. Both sums are 0 where the call is refused, as `no_totals` defines and C gets them.
#[derive(Clone, Copy, Debug, PartialEq, Eq)]
pub struct Totals {
    pub answer: Answer,
    pub matte: u64,
    pub light: u64,
}
