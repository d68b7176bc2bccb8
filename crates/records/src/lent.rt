// What a call of advance is lent.
use records_model::fixed::{Log, Mattes, Pixels, Planes, Scratch, Values};

// The buffers of a run, each wherever its owner keeps it. A function that changes them promises beside the rest that the struct
// holds the same arrays after it, by which `advance` knows what those that it was lent hold then.
#[derive(Drop)]
pub(crate) struct LentBuffers<'a> {
    pub planes: &'a mut Planes,
    pub pixels: &'a mut Pixels,
    pub log: &'a mut Log,
    pub scratch: &'a mut Scratch,
    pub values: &'a mut Values,
    pub mattes: &'a mut Mattes,
}
