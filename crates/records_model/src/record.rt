// Records, as they are read from the input.
ghost use Rattle.std.specs.Prelude.{◌≡◌};
ghost use Rattle.records_model.specs.Record.{put_ask, shapeless_ask};

use plate_model::lent::Ask;
use plate_model::size::Size;
use plate_model::word::Pixel;

// A put's place, and the pixel that it asks for.
#[derive(Clone, Copy, Debug, PartialEq, Eq)]
pub struct PlacedPixel {
    pub x: usize,
    pub y: usize,
    pub pixel: Pixel,
}

// What it asks the plate for.
impl From<PlacedPixel> for Ask {
    ghost from_gives = { λ put ask. ask ≡ put_ask put };

    fn from(put: PlacedPixel) -> Ask {
        Ask {
            x: put.x,
            y: put.y,
            value: put.pixel.value,
            opacity: put.pixel.opacity,
            shape: Some(put.pixel.shape),
            radius: put.pixel.radius,
        }
    }
}

// A put whose shape byte names no shape: what is left to refuse it by.
#[derive(Clone, Copy, Debug, PartialEq, Eq)]
pub struct Shapeless {
    pub x: usize,
    pub y: usize,
    pub value: u16,
}

// It asks for no shape, so that the place and the value are looked at first.
impl From<Shapeless> for Ask {
    ghost from_gives = { λ put ask. ask ≡ shapeless_ask put };

    fn from(put: Shapeless) -> Ask {
        Ask {
            x: put.x,
            y: put.y,
            value: put.value,
            opacity: 0,
            shape: None,
            radius: 0,
        }
    }
}

// One record with its whole body.
#[derive(Clone, Copy, Debug, PartialEq, Eq)]
pub enum Record {
    Open(Size),
    Put(PlacedPixel),
    NoShape(Shapeless),
    Undo,
    Show,
}

// Why a run stops: the paper's numbers 1 and 13 to 16.
#[derive(Clone, Copy, Debug, PartialEq, Eq)]
pub enum Stop {
    Sizes = 1,
    Kind = 13,
    Body = 14,
    Order = 15,
    Cells = 16,
}
