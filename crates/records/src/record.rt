// Records, as they are read from the input.
ghost use Rattle.std.specs.Prelude.{◌≡◌, ◌+◌, ◌<◌, get_or, length};
ghost use Rattle.kernels_model.specs.Shape.{shape_of};
ghost use Rattle.records_model.specs.Record.{body_length, pair, put_record, record_of};

use plate::{Shape, Size};
use plate_model::word::Pixel;
use records_model::fixed::{Body, OPEN, OPEN_BODY, PUT, PUT_BODY, SHOW, UNDO};
use records_model::record::{PlacedPixel, Record, Shapeless};

// The length of a kind's body, if there is such a kind.
pub(crate) fn body_length(kind: u8) -> Option<usize>
    ensures { result ≡ body_length kind }
{
    match kind {
        OPEN => Some(OPEN_BODY),
        PUT => Some(PUT_BODY),
        UNDO | SHOW => Some(0),
        _ => None,
    }
}

// Two bytes of a body, little-endian.
fn pair(body: &Body, at: usize) -> u16
    requires { at + 1 < length body.now }
    ensures { result ≡ pair body.now at }
{
    u16::from_le_bytes([body[at], body[at + 1]])
}

// The same, as a size or a coordinate.
fn size(body: &Body, at: usize) -> usize
    requires { at + 1 < length body.now }
    ensures { result ≡ pair body.now at }
{
    usize::from(pair(body, at))
}

// A put, from its body: without a shape where its byte names none.
fn put_record(body: Body) -> Record
    ensures { result ≡ put_record (shape_of (get_or body 7 0)) body }
{
    let x = size(&body, 0);
    let y = size(&body, 2);
    let value = pair(&body, 4);
    let Ok(shape) = Shape::try_from(body[7]) else {
        return Record::NoShape(Shapeless { x, y, value });
    };
    Record::Put(PlacedPixel {
        x,
        y,
        pixel: Pixel {
            value,
            opacity: body[6],
            shape,
            radius: body[8],
        },
    })
}

// The record of a known kind, from its body. The bytes past a body that is shorter are not looked at.
#[tactic(auto, unfolding(records_model::specs::Record::record_of))]
pub(crate) fn read(kind: u8, body: Body) -> Record
    ensures { result ≡ record_of kind body }
{
    match kind {
        OPEN => Record::Open(Size {
            width: size(&body, 0),
            height: size(&body, 2),
            reach: usize::from(body[4]),
        }),
        PUT => put_record(body),
        UNDO => Record::Undo,
        _ => Record::Show,
    }
}
