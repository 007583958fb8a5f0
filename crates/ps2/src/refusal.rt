// Every way in which a call of this project can be refused, in one type.
ghost use Rattle.std.specs.Prelude.{◌≡◌, Some};
ghost use Rattle.ps2.specs.Refusals.{number_of, meaning_of};

use std::fmt;

#[derive(Clone, Copy, PartialEq, Eq, Debug)]
pub enum Refusal {
    // from the input
    UnknownCommand = 1,
    NoSuchLine = 2,
    FieldOutOfRange = 3,
    FileEndsInside = 4,
    BadRecord = 5,
    TooManyReadings = 6,
    BufferTooShort = 7,
    FileTooLong = 8,
    // from the state
    OutputEmpty = 21,
    InputFull = 22,
    PrefixInLegacy = 23,
    NoRoom = 24,
}

impl Refusal {
    pub fn number(self) -> u8
        ensures { result ≡ number_of self }
    {
        self as u8
    }

    fn meaning(self) -> &'static str
        ensures { result.now ≡ meaning_of self }
    {
        match self {
            Refusal::UnknownCommand => "command byte not in the table",
            Refusal::NoSuchLine => "no such line",
            Refusal::FieldOutOfRange => "event field out of range",
            Refusal::FileEndsInside => "the file ends inside a record, or is empty",
            Refusal::BadRecord => "unknown kind, or wrong length for its kind",
            Refusal::TooManyReadings => "more than 32,768 readings",
            Refusal::BufferTooShort => "the buffer is shorter than the lane",
            Refusal::FileTooLong => "the file is above 65,536 bytes",
            Refusal::OutputEmpty => "data read while no byte waits",
            Refusal::InputFull => "write while the input buffer is full",
            Refusal::PrefixInLegacy => "routing prefix in Legacy mode",
            Refusal::NoRoom => "no room for the event",
        }
    }
}

impl fmt::Display for Refusal {
    ghost output = { λ r. Some (meaning_of r) };

    fn fmt<W: fmt::Write>(&self, f: &mut fmt::Formatter<W>) -> fmt::Result {
        f.write_str(self.meaning())
    }
}
