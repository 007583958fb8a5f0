// What playing a record answers, and its line in the transcript.
ghost use Rattle.std.specs.Prelude.{◌≡◌, ◌++◌, Some, string_bytes, OnOk};
ghost use Rattle.player.specs.Replies.{reply_text, line_text};

use parts::lines::Line;
use parts::output::Carried;
use ps2::refusal::Refusal;
use std::alloc::AllocError;
use std::fmt;
use text::Hex;

// A refusal is one of the things that a line shows, so it is a case here and no `Err`.
#[derive(Clone, Copy)]
pub enum Reply {
    Done,
    Byte(u8),
    Turned(Carried, Option<Line>),
    Refused(Refusal),
}

impl fmt::Display for Reply {
    ghost output = { λ r. Some (reply_text r) };

    fn fmt<W: fmt::Write>(&self, f: &mut fmt::Formatter<W>) -> fmt::Result {
        match self {
            Reply::Done => write!(f, "ok"),
            Reply::Byte(byte) => {
                let byte = Hex(*byte);
                write!(f, "{byte}")
            }
            Reply::Turned(carried, None) => {
                let carried = carried.number();
                write!(f, "{carried} -")
            }
            Reply::Turned(carried, Some(line)) => {
                let carried = carried.number();
                let line = line.number();
                write!(f, "{carried} {line}")
            }
            Reply::Refused(refusal) => {
                let number = refusal.number();
                write!(f, "!{number}")
            }
        }
    }
}

// The line of a record, which is numbered from 1. (What it adds to the text is said as in `report`.)
pub fn write_line(text: &mut String, number: usize, reply: Reply) -> Result<(), AllocError>
    ensures { OnOk result (string_bytes text.new ≡ string_bytes text.old ++ line_text number reply) }
{
    write!(text, "{number} {reply}\n")
}
