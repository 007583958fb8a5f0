// The six lines of the controller: four AUX ports, the keyboard, and the controller's own answers.
ghost use Rattle.std.specs.Prelude.{◌≡◌, ◌<◌};
ghost use Rattle.parts.specs.Lines.{port_number, port_at, line_number, line_after, device_line, in_legacy};

#[derive(Clone, Copy, PartialEq, Eq, Debug)]
pub enum Port {
    P0 = 0,
    P1 = 1,
    P2 = 2,
    P3 = 3,
}

#[derive(Clone, Copy, PartialEq, Eq, Debug)]
pub enum Line {
    Aux(Port),
    Keyboard,
    Controller,
}

impl Port {
    pub fn number(self) -> u8
        ensures value { result ≡ port_number self }
        ensures bound { result < 4 }
    {
        self as u8
    }

    // The port of the two bits that number it: no `From`, since a byte has more values, and no `TryFrom`, since none is
    // refused.
    pub fn at(bits: u8) -> Port
        ensures { result ≡ port_at bits }
    {
        match bits {
            0 => Port::P0,
            1 => Port::P1,
            2 => Port::P2,
            _ => Port::P3,
        }
    }
}

impl Line {
    // By cases, since the enum has a port inside it and so no numbers of its own.
    pub fn number(self) -> u8
        ensures value { result ≡ line_number self }
        ensures bound { result < 6 }
    {
        match self {
            Line::Aux(port) => port.number(),
            Line::Keyboard => 4,
            Line::Controller => 5,
        }
    }

    // The line above, with 0 after 5. By cases: on numbers it would need a way back from them.
    pub fn after(self) -> Line
        ensures { result ≡ line_after self }
    {
        match self {
            Line::Aux(Port::P0) => Line::Aux(Port::P1),
            Line::Aux(Port::P1) => Line::Aux(Port::P2),
            Line::Aux(Port::P2) => Line::Aux(Port::P3),
            Line::Aux(Port::P3) => Line::Keyboard,
            Line::Keyboard => Line::Controller,
            Line::Controller => Line::Aux(Port::P0),
        }
    }

    // Whether Legacy mode has the line.
    pub fn in_legacy(self) -> bool
        ensures { result ≡ in_legacy self }
    {
        !matches!(self, Line::Aux(Port::P1 | Port::P2 | Port::P3))
    }

    // The line of a number, if it has a device: no `TryFrom`, since 5 is a line's number too.
    pub fn with_device(number: u8) -> Option<Line>
        ensures { result ≡ device_line number }
    {
        match number {
            0..=3 => Some(Line::Aux(Port::at(number))),
            4 => Some(Line::Keyboard),
            _ => None,
        }
    }
}
