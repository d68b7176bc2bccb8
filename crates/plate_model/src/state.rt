// What a caller holds of a plate beside its buffers, and what each call answers.
ghost use Rattle.std.specs.Prelude.{◌≡◌};
ghost use Rattle.plate_model.specs.Refusal.{refusal_number, UnknownShape};

use crate::size::Size;
use kernels_model::shape::UnknownShape;

// The sizes of a plate and the number of log entries in use. It goes in by value and comes back in the answer.
#[derive(Clone, Copy, Debug, Default, PartialEq, Eq)]
pub struct State {
    pub size: Size,
    pub count: usize,
}

// Why a call is refused: the paper's numbers 1 to 12, in order, and 17; 13 to 16 are the records'.
#[derive(Clone, Copy, Debug, PartialEq, Eq)]
pub enum Refusal {
    Sizes = 1,
    Lengths,
    LogCount,
    Place,
    Value,
    UnknownShape,
    LargeRadius,
    LogFull,
    LogEmpty,
    StoredWord,
    UnlawfulLens,
    Depth,
    DepthInside = 17,
}

// The paper's number of a refusal.
impl From<Refusal> for u32 {
    ghost from_gives = { λ why n. n ≡ refusal_number why };

    fn from(why: Refusal) -> u32 {
        why as u32
    }
}

// A shape's number that names none, where a call is given it.
impl From<UnknownShape> for Refusal {
    ghost from_gives = { λ _ why. why ≡ UnknownShape };

    fn from(_: UnknownShape) -> Refusal {
        Refusal::UnknownShape
    }
}

// Nothing, where nothing refuses a call, or why it is refused.
pub type Outcome = Result<(), Refusal>;

// The marks are those that a put or an undo moved. Marks and state stand beside the outcome, not in it: a refused call answers them
// too, as `returned` defines and C gets them.
#[derive(Clone, Copy, Debug, PartialEq, Eq)]
pub struct Answer {
    pub outcome: Outcome,
    pub marks: u32,
    pub state: State,
}
