// The controller over five devices, each of any kind: four at the AUX ports, and the keyboard.
#![tactic(auto)]

ghost use Rattle.std.specs.Prelude.{◌≡◌};
ghost use Rattle.rules.specs.States.{power_on};
ghost use Rattle.rules.specs.Histories.{new};
ghost use Rattle.rules.specs.Law.{Reached};
ghost use Rattle.bank.specs.Fives.{kinds_of, values_of, five_of};
ghost use Rattle.controller.specs.Controllers.{state_by};

use bank::bank::Bank;
use bank::five::Five;
use kbc::calls::KeyboardController;
use kbc::chip::Chip;
use parts::lines::Line;
use parts::output::Carried;
use ps2::device::Device;
use ps2::event::Event;
use ps2::refusal::Refusal;

// A type of its own over the chip and no alias: its contracts speak of five devices' models, and of no bank.
#[derive(Drop)]
pub struct Controller<P0, P1, P2, P3, K> {
    chip: Chip<Five<P0, P1, P2, P3, K>>,
}

impl<P0: Device, P1: Device, P2: Device, P3: Device, K: Device> Controller<P0, P1, P2, P3, K> {
    // Powers the devices up, four at the AUX ports and the keyboard.
    pub fn new(
        port0: P0,
        port1: P1,
        port2: P2,
        port3: P3,
        keyboard: K,
    ) -> Controller<P0, P1, P2, P3, K>
        ensures value { state_by P0.Device.model P1.Device.model P2.Device.model P3.Device.model K.Device.model result ≡ power_on (values_of P0.Device.model P1.Device.model P2.Device.model P3.Device.model K.Device.model (five_of port0 port1 port2 port3 keyboard)) }
        ensures runs { Reached (values_of P0.Device.model P1.Device.model P2.Device.model P3.Device.model K.Device.model (five_of port0 port1 port2 port3 keyboard)) new (state_by P0.Device.model P1.Device.model P2.Device.model P3.Device.model K.Device.model result) }
    {
        let devices = Five {
            port0,
            port1,
            port2,
            port3,
            keyboard,
        };
        Controller {
            chip: Chip::new(devices),
        }
    }
}

impl<P0: Device, P1: Device, P2: Device, P3: Device, K: Device> KeyboardController
    for Controller<P0, P1, P2, P3, K> {
    ghost kinds = { kinds_of P0.Device.model P1.Device.model P2.Device.model P3.Device.model K.Device.model };

    ghost state = { state_by P0.Device.model P1.Device.model P2.Device.model P3.Device.model K.Device.model };

    fn read_status(&self) -> u8 {
        self.chip.read_status()
    }

    fn interrupts(&self) -> (bool, bool) {
        self.chip.interrupts()
    }

    fn read_data(&mut self) -> Result<u8, Refusal> {
        self.chip.read_data()
    }

    fn write_command(&mut self, byte: u8) -> Result<(), Refusal> {
        self.chip.write_command(byte)
    }

    fn write_data(&mut self, byte: u8) -> Result<(), Refusal> {
        self.chip.write_data(byte)
    }

    fn event(&mut self, line: u8, event: Event<'_>) -> Result<(), Refusal> {
        self.chip.event(line, event)
    }

    fn turn(&mut self) -> (Carried, Option<Line>) {
        self.chip.turn()
    }
}
