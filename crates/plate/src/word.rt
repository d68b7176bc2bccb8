// The pixel word and the log entry.
ghost use Rattle.std.specs.Prelude.{◌≡◌, ◌^◌, ◌<◌, ◌≤◌};
ghost use Rattle.kernels_model.specs.Fixed.{value_top};
ghost use Rattle.plate_model.specs.Fixed.{word_bits};
ghost use Rattle.plate_model.specs.Word.{word_of, read_word, logged_as, read_entry};

use crate::size::PlateSize;
use kernels::Shape;
use plate_model::fixed::{WORD_BITS, WORD_MASK};
use plate_model::word::{Entry, Pixel};

// The word of a pixel: the value in bits 0 to 11, opacity in 12 to 19, shape in 20 to 23, radius in 24 to 31.
pub(crate) fn pack(p: Pixel) -> u64
    requires { p.value ≤ value_top }
    ensures { result ≡ word_of p }
{
    let shape = u64::from(u8::from(p.shape));
    u64::from(p.value) | u64::from(p.opacity) << 12 | shape << 20 | u64::from(p.radius) << 24
}

// The pixel that a word holds. None where it has a bit above the 31st, an unknown shape, or a radius above the shape's top.
pub(crate) fn unpack(word: u64, reach: usize) -> Option<Pixel>
    ensures { result ≡ read_word reach word }
{
    if word >> WORD_BITS != 0 {
        return None;
    }
    let shape = Shape::try_from((word >> 20 & 15) as u8).ok()?;
    let radius = (word >> 24 & 255) as u8;
    if kernels::shape::top_under(shape, reach) < radius {
        return None;
    }
    Some(Pixel {
        value: (word & 4095) as u16,
        opacity: (word >> 12 & 255) as u8,
        shape,
        radius,
    })
}

// A log entry: the word below, the place above.
pub(crate) fn pack_entry(word: u64, place: usize) -> u64
    requires { (word < 2 ^ word_bits) × (place < 2 ^ word_bits) }
    ensures { result ≡ logged_as word place }
{
    word | (place as u64) << WORD_BITS
}

// The place and the pixel of a log entry. None where the place lies outside of the plate or the word holds no pixel.
pub(crate) fn unpack_entry(entry: u64, size: PlateSize) -> Option<Entry>
    ensures { result ≡ read_entry size.size entry }
{
    let place = (entry >> WORD_BITS) as usize;
    if size.places() <= place {
        return None;
    }
    let pixel = unpack(entry & WORD_MASK, size.size.reach)?;
    Some(Entry { place, pixel })
}
