// One record, from its bytes.
ghost use Rattle.std.specs.Prelude.{◌≡◌, length};
ghost use Rattle.session.specs.Records.{stroke_length, said, plain};
ghost use Rattle.session.specs.Readers.{Split, Found};

use crate::record_kinds::Record;
use ps2::event::{Event, Movement};
use ps2::refusal::Refusal;

// A record's kind, its payload, which is there whole, and the bytes behind the record.
struct Parts<'a> {
    kind: u16,
    payload: &'a [u8],
    rest: &'a [u8],
}

// Takes the header from the front of the bytes left, and what it announces.
fn split(left: &[u8]) -> Result<Parts<'_>, Refusal>
    ensures { Split left.now result }
{
    let [length_low, length_high, kind_low, kind_high, body @ ..] = left else {
        return Err(Refusal::FileEndsInside);
    };
    let length = u16::from_le_bytes([*length_low, *length_high]) as usize;
    let kind = u16::from_le_bytes([*kind_low, *kind_high]);
    let (payload, rest) = body
        .split_at_checked(length)
        .ok_or(Refusal::FileEndsInside)?;
    Ok(Parts {
        kind,
        payload,
        rest,
    })
}

// The record at the front of the bytes left, and the bytes behind it.
pub(crate) fn first(left: &[u8]) -> Result<(Record<'_>, &[u8]), Refusal>
    ensures { Found left.now result }
{
    let Parts {
        kind,
        payload,
        rest,
    } = split(left)?;
    Ok((decode(kind, payload)?, rest))
}

fn is_stroke(bytes: &[u8]) -> bool
    ensures { result ≡ stroke_length (length bytes.now) }
{
    let stroke = Event::Stroke(bytes);
    stroke.is_in_range()
}

// What a payload of a kind says. The kind stays the format's number: an unknown one and a wrong length are refused alike.
fn decode(kind: u16, payload: &[u8]) -> Result<Record<'_>, Refusal>
    ensures { plain result ≡ said kind payload.now }
{
    match (kind, payload) {
        (1, [byte]) => Ok(Record::CommandWrite(*byte)),
        (2, [byte]) => Ok(Record::DataWrite(*byte)),
        (3, []) => Ok(Record::StatusRead),
        (4, []) => Ok(Record::DataRead),
        (5, []) => Ok(Record::Turn),
        (6, [line, buttons, dx_low, dx_high, dy_low, dy_high, wheel]) => Ok(Record::Movement {
            line: *line,
            movement: Movement {
                dx: i16::from_le_bytes([*dx_low, *dx_high]),
                dy: i16::from_le_bytes([*dy_low, *dy_high]),
                wheel: wheel.cast_signed(),
                buttons: *buttons,
            },
        }),
        (7, [line, bytes @ ..]) if is_stroke(bytes) => Ok(Record::Stroke { line: *line, bytes }),
        (8, [line, action]) => Ok(Record::Cable {
            line: *line,
            action: *action,
        }),
        _ => Err(Refusal::BadRecord),
    }
}
