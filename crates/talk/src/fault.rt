// What is wrong with a line.
ghost use Rattle.std.specs.Prelude.{◌≡◌, Some};
ghost use Rattle.talk.specs.Faults.{fault_words};

use std::fmt;

#[derive(Clone, Copy)]
pub(crate) enum Fault {
    UnknownWord,
    BadByte,
    BadMovement,
    OutOfRange,
    NoMouse,
}

impl Fault {
    fn words(self) -> &'static str
        ensures { result.now ≡ fault_words self }
    {
        match self {
            Fault::UnknownWord => "unknown word",
            Fault::BadByte => "a byte is two hexadecimal digits",
            Fault::BadMovement => "a movement has four numbers",
            Fault::OutOfRange => "number out of range",
            Fault::NoMouse => "no mouse yet",
        }
    }
}

impl fmt::Display for Fault {
    ghost output = { λ f. Some (fault_words f) };

    fn fmt<W: fmt::Write>(&self, f: &mut fmt::Formatter<W>) -> fmt::Result {
        f.write_str(self.words())
    }
}
