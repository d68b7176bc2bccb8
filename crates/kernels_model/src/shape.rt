// The six shapes of a lens opening, and the numbers that stand for them outside of this engine.
ghost use Rattle.std.specs.Prelude.{◌≡◌};
ghost use Rattle.std.specs.Result.{result_ok};
ghost use Rattle.kernels_model.specs.Shape.{number_of, shape_answer, shape_answer_for};

#[derive(Clone, Copy, Debug, PartialEq, Eq)]
pub enum Shape {
    Box,
    Tent,
    Triple,
    Diamond,
    Hexagon,
    Octagon,
}

// A number above 5, which names no shape.
#[derive(Clone, Copy, Debug, PartialEq, Eq)]
pub struct UnknownShape;

impl From<Shape> for u8 {
    ghost from_gives = { λ s n. n ≡ number_of s };

    fn from(s: Shape) -> u8 {
        s as u8
    }
}

impl TryFrom<u8> for Shape {
    type Error = UnknownShape;

    ghost try_from_gives = { λ n s. shape_answer (result_ok s) ≡ shape_answer_for n };

    #[tactic(auto, using(crate::proofs::Taps::ShapeNumbers::shape_above), unfolding(crate::specs::Shape::shape_answer, crate::specs::Shape::shape_answer_for))]
    fn try_from(n: u8) -> Result<Self, UnknownShape> {
        match n {
            0 => Ok(Shape::Box),
            1 => Ok(Shape::Tent),
            2 => Ok(Shape::Triple),
            3 => Ok(Shape::Diamond),
            4 => Ok(Shape::Hexagon),
            5 => Ok(Shape::Octagon),
            _ => Err(UnknownShape),
        }
    }
}
