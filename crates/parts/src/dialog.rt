// The talk with the host: what it writes, and what its next data byte is for.
ghost use Rattle.std.specs.Prelude.{◌≡◌};
ghost use Rattle.parts.specs.Sequence.{leads, outcome};
ghost use Rattle.parts.specs.Commands.{new_dialog, with_place, decoded, awaits, needs};

use crate::lines::{Line, Port};
use crate::settings::{Gate, Mode};

// What the next data byte is for. Where nothing awaits it, it is sent to the keyboard.
#[derive(Clone, Copy)]
pub enum Awaited {
    CommandByte,
    // held as if the keyboard or port 0 had given it
    KeyboardLoopback,
    AuxLoopback,
    // sent to port 0, in Legacy mode
    AuxSend,
    // sent to a port, in Multiplexed mode
    Route(Port),
}

#[derive(Clone, Copy)]
pub enum Command {
    ReadCommandByte,
    // what it makes of the next data byte; no byte decodes to `None`, but a narrower type would ask more of a caller
    Await(Option<Awaited>),
    Disable(Gate),
    Enable(Gate),
    AuxTest,
    SelfTest,
    KeyboardTest,
}

#[derive(Clone, Copy)]
pub enum HostByte {
    Command(Command),
    Data(u8),
}

// How much of the activation sequence was heard: none, F0h, or F0h and 56h.
#[derive(Clone, Copy)]
pub enum Place {
    Zero,
    One,
    Two,
}

#[derive(Clone, Copy)]
pub struct Dialog {
    pub input: Option<HostByte>,
    pub awaited: Option<Awaited>,
    pub place: Place,
}

impl Command {
    // The command of a byte, by what was awaited before it; none where the table has no such byte.
    pub fn decode(byte: u8, awaited: Option<Awaited>) -> Option<Command>
        ensures { result ≡ decoded awaited byte }
    {
        let command = match byte {
            0x20 => Command::ReadCommandByte,
            0x60 => Command::Await(Some(Awaited::CommandByte)),
            0x90..=0x93 => Command::Await(Some(Awaited::Route(Port::at(byte - 0x90)))),
            0xA7 if let Some(Awaited::Route(p)) = awaited => Command::Disable(Gate::OnePort(p)),
            0xA7 => Command::Disable(Gate::Aux),
            0xA8 if let Some(Awaited::Route(p)) = awaited => Command::Enable(Gate::OnePort(p)),
            0xA8 => Command::Enable(Gate::Aux),
            0xA9 => Command::AuxTest,
            0xAA => Command::SelfTest,
            0xAB => Command::KeyboardTest,
            0xAD => Command::Disable(Gate::Keyboard),
            0xAE => Command::Enable(Gate::Keyboard),
            0xD2 => Command::Await(Some(Awaited::KeyboardLoopback)),
            0xD3 => Command::Await(Some(Awaited::AuxLoopback)),
            0xD4 => Command::Await(Some(Awaited::AuxSend)),
            _ => return None,
        };
        Some(command)
    }
}

impl HostByte {
    // What the next data byte is for after this one.
    pub fn awaits(self) -> Option<Awaited>
        ensures { result ≡ awaits self }
    {
        match self {
            HostByte::Command(Command::Await(awaited)) => awaited,
            HostByte::Command(_) | HostByte::Data(_) => None,
        }
    }

    // The line whose held place it needs to be empty.
    pub fn needs(self, awaited: Option<Awaited>) -> Option<Line>
        ensures { result ≡ needs self awaited }
    {
        match (self, awaited) {
            (HostByte::Command(Command::ReadCommandByte), _) => Some(Line::Controller),
            (HostByte::Command(Command::AuxTest), _) => Some(Line::Controller),
            (HostByte::Command(Command::SelfTest), _) => Some(Line::Controller),
            (HostByte::Command(Command::KeyboardTest), _) => Some(Line::Controller),
            (HostByte::Command(_), _) => None,
            (HostByte::Data(_), Some(Awaited::CommandByte)) => None,
            (HostByte::Data(_), None) => Some(Line::Keyboard),
            (HostByte::Data(_), Some(Awaited::KeyboardLoopback)) => Some(Line::Keyboard),
            (HostByte::Data(_), Some(Awaited::AuxLoopback)) => Some(Line::Aux(Port::P0)),
            (HostByte::Data(_), Some(Awaited::AuxSend)) => Some(Line::Aux(Port::P0)),
            (HostByte::Data(_), Some(Awaited::Route(port))) => Some(Line::Aux(port)),
        }
    }
}

impl Dialog {
    pub fn new() -> Dialog
        ensures { result ≡ new_dialog }
    {
        Dialog {
            input: None,
            awaited: None,
            place: Place::Zero,
        }
    }

    // Goes on in the activation sequence by an argument; answers the mode to switch to, if any.
    pub fn argue(&mut self, argument: u8) -> Option<Mode>
        ensures value { result ≡ outcome self.old.place argument }
        ensures after { self.new ≡ with_place (leads self.old.place argument) self.old }
    {
        let (place, mode) = match (self.place, argument) {
            (_, 0xF0) => (Place::One, None),
            (Place::One, 0x56) => (Place::Two, None),
            (Place::Two, 0xA4) => (Place::Zero, Some(Mode::Multiplexed)),
            (Place::Two, 0xA5) => (Place::Zero, Some(Mode::Legacy)),
            _ => (Place::Zero, None),
        };
        self.place = place;
        mode
    }
}
