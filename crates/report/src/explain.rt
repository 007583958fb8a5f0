// A session file in words: each record with its number and place, and how the file ends.
ghost use Rattle.std.specs.Prelude.{◌≡◌, ◌++◌, IfOk, Some, string_bytes, OnOk};
ghost use Rattle.session.specs.Records.{item_of};
ghost use Rattle.session.specs.Files.{complete, refused, session};
ghost use Rattle.session.specs.Readers.{file_of, left_of, AtStart};
ghost use Rattle.report.specs.Explained.{action_words, motion_words, words, line, end_line, lines_of, explained};

use ps2::event::Movement;
use ps2::refusal::Refusal;
use session::reader::Reader;
use session::record_kinds::Record;
use std::alloc::{AllocError, Global};
use std::fmt;
use text::{Hex, HexBytes};

// What a cable record asks for.
#[derive(Clone, Copy)]
struct Action(u8);

impl fmt::Display for Action {
    ghost output = { λ a. Some (action_words a.0) };

    fn fmt<W: fmt::Write>(&self, f: &mut fmt::Formatter<W>) -> fmt::Result {
        match self.0 {
            0 => write!(f, "pull"),
            1 => write!(f, "plug"),
            other => write!(f, "action {other}"),
        }
    }
}

// How far a movement goes.
#[derive(Clone, Copy)]
struct Motion(Movement);

impl fmt::Display for Motion {
    ghost output = { λ m. Some (motion_words m.0.dx m.0.dy m.0.wheel) };

    fn fmt<W: fmt::Write>(&self, f: &mut fmt::Formatter<W>) -> fmt::Result {
        let Movement { dx, dy, wheel, .. } = self.0;
        write!(f, "dx {dx}, dy {dy}, wheel {wheel}")
    }
}

// A record in words.
#[derive(Clone, Copy)]
struct Words<'a>(Record<'a>);

impl<'a> fmt::Display for Words<'a> {
    ghost output = { λ w. Some (words (item_of w.0)) };

    fn fmt<W: fmt::Write>(&self, f: &mut fmt::Formatter<W>) -> fmt::Result {
        match self.0 {
            Record::CommandWrite(byte) => {
                let byte = Hex(byte);
                write!(f, "command write {byte}")
            }
            Record::DataWrite(byte) => {
                let byte = Hex(byte);
                write!(f, "data write {byte}")
            }
            Record::StatusRead => write!(f, "status read"),
            Record::DataRead => write!(f, "data read"),
            Record::Turn => write!(f, "turn"),
            Record::Movement { line, movement } => {
                let buttons = movement.buttons;
                let motion = Motion(movement);
                write!(f, "movement, line {line}: buttons {buttons}, {motion}")
            }
            Record::Stroke { line, bytes } => {
                let bytes = HexBytes(bytes);
                write!(f, "stroke, line {line}:{bytes}")
            }
            Record::Cable { line, action } => {
                let action = Action(action);
                write!(f, "cable, line {line}: {action}")
            }
        }
    }
}

fn write_end(text: &mut String, place: usize, number: usize) -> Result<(), AllocError>
    ensures { OnOk result (string_bytes text.new ≡ string_bytes text.old ++ end_line number place complete) }
{
    write!(text, "end at {place}: {number} in all\n")
}

fn write_refused(text: &mut String, place: usize, refusal: Refusal) -> Result<(), AllocError>
    ensures { OnOk result (string_bytes text.new ≡ string_bytes text.old ++ end_line 0 place (refused refusal)) }
{
    let number = refusal.number();
    write!(text, "refused at {place} with {number}: {refusal}\n")
}

fn write_record(
    text: &mut String,
    number: usize,
    place: usize,
    next: Record<'_>,
) -> Result<(), AllocError>
    ensures { OnOk result (string_bytes text.new ≡ string_bytes text.old ++ line number place (item_of next.entry)) }
{
    let words = Words(next);
    write!(text, "{number} at {place}: {words}\n")
}

// The lines of a file from a reader at its start, numbered by hand, since a reader is no iterator: a refusal
// leaves it where it was.
fn write_records(text: &mut String, mut reader: Reader<'_>) -> Result<(), AllocError>
    requires { AtStart (file_of reader) reader }
    ensures { OnOk result (string_bytes text.new ≡ string_bytes text.old ++ lines_of 0 0 (session (left_of reader.entry))) }
{
    let mut number = 0;
    loop {
        let place = reader.place();
        let found = match reader.next_record() {
            Ok(found) => found,
            Err(refusal) => return write_refused(text, place, refusal),
        };
        let Some(next) = found else {
            return write_end(text, place, number);
        };
        number += 1;
        write_record(text, number, place, next)?;
    }
}

fn write_file(text: &mut String, file: &[u8]) -> Result<(), AllocError>
    ensures { OnOk result (string_bytes text.new ≡ string_bytes text.old ++ explained file.now) }
{
    match Reader::open(file) {
        Ok(reader) => write_records(text, reader),
        Err(refusal) => write_refused(text, 0, refusal),
    }
}

// A session file in words.
pub fn explain(heap: Global, file: &[u8]) -> Result<String, AllocError>
    ensures { IfOk result (λ t. string_bytes t ≡ explained file.now) }
{
    let mut text = String::new(heap);
    write_file(&mut text, file)?;
    Ok(text)
}
