// A lens, and a radius from depth.

// Opening, focal length and focus in 0.1 mm, pitch in 0.1 µm.
#[derive(Clone, Copy, Debug, PartialEq, Eq)]
pub struct Lens {
    pub opening: u32,
    pub focal: u32,
    pub focus: u32,
    pub pitch: u32,
}

// Why there is no radius.
#[derive(Clone, Copy, Debug, PartialEq, Eq)]
pub enum RadiusError {
    NoLens,
    NoDepth,
}
