// What the calls of a plate are lent.
ghost use Rattle.std.specs.Prelude.{◌≡◌};
ghost use Rattle.plate_model.specs.Lent.{lengths_of};

use plate_model::lent::LentLengths;

// Planes, pixels and log. The calls that change them are methods, in `open.rt`, `put.rt`, `undo.rt`, `fill.rt` and `kept.rt`. Each
// promises beside its answer that the struct holds the same slices after it, by which a caller knows what its own hold then.
#[derive(Drop)]
pub struct Lent<'a> {
    pub planes: &'a mut [u64],
    pub pixels: &'a mut [u64],
    pub log: &'a mut [u64],
}

impl Lent<'_> {
    ghost use Rattle.plate.specs.Lending.{lent_of};

    pub(crate) fn lengths(&self) -> LentLengths
        ensures { result ≡ lengths_of (lent_of self.now) }
    {
        LentLengths {
            planes: self.planes.len(),
            pixels: self.pixels.len(),
            log: self.log.len(),
        }
    }
}
