// Five devices, each of any kind: four at the AUX ports, one as the keyboard.
ghost use Rattle.std.specs.Prelude.{◌≡◌};
ghost use Rattle.bank.specs.Fives.{kinds_of, values_of};

use crate::bank::Bank;
use parts::lines::{Line, Port};
use ps2::device::Device;
use ps2::entry::Entry;
use ps2::event::Event;
use ps2::refusal::Refusal;

// Each call has a match of its own: the five types differ, and the gate refuses a `dyn` that is
// handed out.
#[derive(Drop)]
pub struct Five<P0, P1, P2, P3, K> {
    pub port0: P0,
    pub port1: P1,
    pub port2: P2,
    pub port3: P3,
    pub keyboard: K,
}

impl<P0: Device, P1: Device, P2: Device, P3: Device, K: Device> Bank for Five<P0, P1, P2, P3, K> {
    ghost kinds = { kinds_of P0.Device.model P1.Device.model P2.Device.model P3.Device.model K.Device.model };

    ghost values = { values_of P0.Device.model P1.Device.model P2.Device.model P3.Device.model K.Device.model };

    fn power_up(&mut self) {
        self.port0.power_up();
        self.port1.power_up();
        self.port2.power_up();
        self.port3.power_up();
        self.keyboard.power_up();
    }

    fn waits(&self, line: Line) -> bool {
        match line {
            Line::Aux(Port::P0) => self.port0.waits(),
            Line::Aux(Port::P1) => self.port1.waits(),
            Line::Aux(Port::P2) => self.port2.waits(),
            Line::Aux(Port::P3) => self.port3.waits(),
            Line::Keyboard => self.keyboard.waits(),
            Line::Controller => false,
        }
    }

    fn give(&mut self, line: Line) -> Option<Entry> {
        match line {
            Line::Aux(Port::P0) => self.port0.give(),
            Line::Aux(Port::P1) => self.port1.give(),
            Line::Aux(Port::P2) => self.port2.give(),
            Line::Aux(Port::P3) => self.port3.give(),
            Line::Keyboard => self.keyboard.give(),
            Line::Controller => None,
        }
    }

    fn receive(&mut self, line: Line, byte: u8) -> bool {
        match line {
            Line::Aux(Port::P0) => self.port0.receive(byte),
            Line::Aux(Port::P1) => self.port1.receive(byte),
            Line::Aux(Port::P2) => self.port2.receive(byte),
            Line::Aux(Port::P3) => self.port3.receive(byte),
            Line::Keyboard => self.keyboard.receive(byte),
            Line::Controller => false,
        }
    }

    fn event(&mut self, line: Line, event: Event<'_>) -> Result<(), Refusal> {
        match line {
            Line::Aux(Port::P0) => self.port0.event(event),
            Line::Aux(Port::P1) => self.port1.event(event),
            Line::Aux(Port::P2) => self.port2.event(event),
            Line::Aux(Port::P3) => self.port3.event(event),
            Line::Keyboard => self.keyboard.event(event),
            Line::Controller => Ok(()),
        }
    }
}
