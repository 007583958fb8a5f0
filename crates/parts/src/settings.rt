// How a controller is set up, and which lines are open for that.
ghost use Rattle.std.specs.Prelude.{◌≡◌};
ghost use Rattle.parts.specs.Settings.{new_settings, disabling, enabling, line_open};

use crate::lines::{Line, Port};

#[derive(Clone, Copy, PartialEq, Eq, Debug)]
pub enum Mode {
    Legacy,
    Multiplexed,
}

// What a disable or enable command acts on.
#[derive(Clone, Copy)]
pub enum Gate {
    Keyboard,
    Aux,
    OnePort(Port),
}

// The command byte (bits 0 and 1 interrupts, 2 System Flag, 4 keyboard disable, 5 AUX disable)
// and each port's own disable flag. A host reads all eight bits back, so it stays a byte.
#[derive(Clone, Copy)]
pub struct Settings {
    pub mode: Mode,
    pub command: u8,
    // by a port's number: four, as there are ports, so an array and no vector
    pub disabled: [bool; 4],
}

const KEYBOARD_DISABLE: u8 = 0x10;

const AUX_DISABLE: u8 = 0x20;

impl Settings {
    pub fn new() -> Settings
        ensures { result ≡ new_settings }
    {
        Settings {
            mode: Mode::Legacy,
            command: 0,
            disabled: [false; 4],
        }
    }

    pub fn disable(&mut self, gate: Gate)
        ensures { self.new ≡ disabling gate self.old }
    {
        match gate {
            Gate::Keyboard => self.command |= KEYBOARD_DISABLE,
            Gate::Aux => self.command |= AUX_DISABLE,
            Gate::OnePort(port) => self.disabled[port.number() as usize] = true,
        }
    }

    // Written out beside `disable`: they differ in the operator, which no parameter says more plainly.
    pub fn enable(&mut self, gate: Gate)
        ensures { self.new ≡ enabling gate self.old }
    {
        match gate {
            Gate::Keyboard => self.command &= !KEYBOARD_DISABLE,
            Gate::Aux => self.command &= !AUX_DISABLE,
            Gate::OnePort(port) => self.disabled[port.number() as usize] = false,
        }
    }

    // Whether a line's device may give.
    pub fn is_open(&self, line: Line) -> bool
        ensures { result ≡ line_open self.now line }
    {
        let aux = self.command & AUX_DISABLE == 0;
        match (line, self.mode) {
            (Line::Aux(Port::P0), Mode::Legacy) => aux,
            (Line::Aux(_), Mode::Legacy) => false,
            (Line::Aux(port), Mode::Multiplexed) => aux && !self.disabled[port.number() as usize],
            (Line::Keyboard, _) => self.command & KEYBOARD_DISABLE == 0,
            (Line::Controller, _) => false,
        }
    }
}
