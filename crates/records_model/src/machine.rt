// The machine between two bytes, and what a byte makes of it.
use crate::effect::Stage;
use crate::fixed::Body;
use crate::request::Task;

// A run between two bytes: where it stands, the record that is being read (its kind, how many bytes of its body are held, and of
// how many), and how many records have begun. The kind is the byte that came, and the body has its counts beside it, since
// `begun_of`, `carried_of`, `settled_of` and `record_of` define a byte's effect by these.
#[derive(Clone, Copy, Debug, PartialEq, Eq)]
pub struct Machine {
    pub stage: Stage,
    pub kind: u8,
    pub held: usize,
    pub whole: usize,
    pub body: Body,
    pub count: u64,
}

// A byte taken in, and what there is to do then.
#[derive(Clone, Copy, Debug, PartialEq, Eq)]
pub struct Taken {
    pub machine: Machine,
    pub task: Task,
}
