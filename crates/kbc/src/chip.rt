// The controller above its bank of devices.
ghost use Rattle.std.specs.Prelude.{◌≡◌};
ghost use Rattle.rules.specs.States.{power_on};
ghost use Rattle.rules.specs.Histories.{new};
ghost use Rattle.rules.specs.Law.{Reached};
ghost use Rattle.kbc.specs.Chips.{state_of};

use crate::calls::KeyboardController;
use bank::bank::Bank;
use parts::dialog::Dialog;
use parts::held::Lines;
use parts::lines::{Line, Port};
use parts::output::{Carried, Shown};
use parts::settings::Settings;
use ps2::event::Event;
use ps2::refusal::Refusal;

mod arbiter;
mod asking;
mod hosting;
mod sending;
mod turns;

#[derive(Drop)]
pub struct Chip<B> {
    settings: Settings,
    dialog: Dialog,
    output: Option<Shown>,
    // the line at which the arbiter begins
    next: Line,
    lines: Lines,
    devices: B,
}

impl<B: Bank> Chip<B> {
    // Powers the devices up.
    pub fn new(mut devices: B) -> Chip<B>
        ensures value { state_of B.Bank.values result ≡ power_on (B.Bank.values devices) }
        ensures runs { Reached (B.Bank.values devices) new (state_of B.Bank.values result) }
    {
        devices.power_up();
        Chip {
            settings: Settings::new(),
            dialog: Dialog::new(),
            output: None,
            next: Line::Aux(Port::P0),
            lines: Lines::new(),
            devices,
        }
    }
}

// The law of runs stands on each call, above an exact one that is proved without it.
impl<B: Bank> KeyboardController for Chip<B> {
    ghost kinds = { B.Bank.kinds };

    ghost state = { state_of B.Bank.values };

    #[tactic(auto, using(rules::proofs::Laws::status_kept))]
    fn read_status(&self) -> u8 {
        self.status()
    }

    #[tactic(auto, using(rules::proofs::Laws::stands))]
    fn interrupts(&self) -> (bool, bool) {
        self.irqs()
    }

    #[tactic(auto, using(rules::proofs::Laws::read_kept))]
    fn read_data(&mut self) -> Result<u8, Refusal> {
        self.read()
    }

    #[tactic(auto, using(rules::proofs::Laws::command_kept))]
    fn write_command(&mut self, byte: u8) -> Result<(), Refusal> {
        self.accept_command(byte)
    }

    #[tactic(auto, using(rules::proofs::Laws::data_kept))]
    fn write_data(&mut self, byte: u8) -> Result<(), Refusal> {
        self.accept_data(byte)
    }

    #[tactic(auto, using(rules::proofs::Laws::event_kept))]
    fn event(&mut self, line: u8, event: Event<'_>) -> Result<(), Refusal> {
        self.tell(line, event)
    }

    #[tactic(auto, using(rules::proofs::Laws::turn_kept))]
    fn turn(&mut self) -> (Carried, Option<Line>) {
        self.advance()
    }
}
