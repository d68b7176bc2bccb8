// The sizes of a plate, and the frame of its planes that follows from them.
ghost use Rattle.plate_model.specs.Table.{LawfulSize};

use plate_model::fixed::BORDER;
use plate_model::size::Size;

// A padded plane: the cells of a row, its rows, and its cells in all; and the places of the image.
#[derive(Clone, Copy)]
pub struct Frame {
    pub size: Size,
    pub wide: usize,
    pub high: usize,
    pub padded: usize,
    pub places: usize,
}

// Sizes that a plate can have: all its planes together are far below 2^64.
#[derive(Clone, Copy)]
pub(crate) struct PlateSize {
    pub size: Size,
    ghost lawful: { LawfulSize size },
}

impl PlateSize {
    ghost use Rattle.std.specs.Prelude.{◌≡◌};
    ghost use Rattle.plate_model.specs.Layout.{places};
    ghost use Rattle.plate.specs.Frame.{frame_of};

    // The places of the image.
    pub(crate) fn places(self) -> usize
        ensures { result ≡ places self.size }
    {
        self.size.width * self.size.height
    }

    // The frame of the planes.
    #[tactic(auto, using(plate_model::proofs::Numbers::Extents::padded_small))]
    pub(crate) fn frame(self) -> Frame
        ensures { result ≡ frame_of self.size }
    {
        let wide = self.size.width + 2 * self.size.reach + BORDER;
        let high = self.size.height + 2 * self.size.reach + BORDER;
        Frame {
            size: self.size,
            wide,
            high,
            padded: wide * high,
            places: self.places(),
        }
    }
}
