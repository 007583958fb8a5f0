// What a controller shows the host, and answers to a turn.
ghost use Rattle.std.specs.Prelude.{◌≡◌, ◌≤◌};
ghost use Rattle.parts.specs.Outputs.{carried_number, fault_bits, line_bits, is_aux};

use crate::lines::Line;
use crate::settings::Mode;
use ps2::entry::Entry;

// An entry in the output buffer, with the line that it came from.
#[derive(Clone, Copy)]
pub struct Shown {
    pub line: Line,
    pub entry: Entry,
}

// What became of the host byte.
#[derive(Clone, Copy, PartialEq, Eq, Debug)]
pub enum Carried {
    NoByte = 0,
    Stays = 1,
    CarriedOut = 2,
    NowMultiplexed = 3,
    NowLegacy = 4,
}

// Parity in bit 7, timeout in bit 6.
fn fault_bits(entry: Entry) -> u8
    ensures value { result ≡ fault_bits entry }
    ensures bound { result ≤ 128 }
{
    match entry {
        Entry::Byte(_) => 0,
        Entry::Parity => 0x80,
        Entry::Timeout => 0x40,
    }
}

impl Shown {
    pub fn is_aux(self) -> bool
        ensures { result ≡ is_aux self.line }
    {
        matches!(self.line, Line::Aux(_))
    }

    // Bits 7 to 2 of the status beside it.
    pub fn bits(self, mode: Mode, system_flag: bool) -> u8
        ensures value { result ≡ line_bits mode system_flag self.line self.entry }
        ensures bound { result ≤ 252 }
    {
        let faults = fault_bits(self.entry);
        match (self.line, mode) {
            (Line::Aux(_), Mode::Legacy) => faults + 0x24,
            (Line::Aux(port), Mode::Multiplexed) => {
                let error = 4 * u8::from(faults != 0);
                port.number() * 64 + 0x20 + error
            }
            (Line::Keyboard | Line::Controller, _) => faults + 4 * u8::from(system_flag),
        }
    }
}

impl Carried {
    pub fn number(self) -> u8
        ensures { result ≡ carried_number self }
    {
        self as u8
    }
}
