// What the host reads and writes, and what happens to the devices.
ghost use Rattle.std.specs.Prelude.{◌≡◌};
ghost use Rattle.ps2.specs.Events.{told};
ghost use Rattle.rules.specs.Status.{status, interrupts};
ghost use Rattle.rules.specs.Calls.{read_answer, read_after, command_answer, command_after, data_answer, data_after, event_answer, event_after};
ghost use Rattle.kbc.specs.Chips.{state_of};

use super::Chip;
use bank::bank::Bank;
use parts::dialog::{Awaited, Command, HostByte};
use parts::lines::Line;
use parts::settings::Mode;
use ps2::event::Event;
use ps2::refusal::Refusal;

// Bits of the command byte.
const IRQ_1: u8 = 0x01;

const IRQ_12: u8 = 0x02;

const SYSTEM_FLAG: u8 = 0x04;

impl<B: Bank> Chip<B> {
    pub(super) fn status(&self) -> u8
        ensures { result ≡ status (state_of B.Bank.values self.now) }
    {
        let flag = self.settings.command & SYSTEM_FLAG != 0;
        let output = match self.output {
            Some(shown) => shown.bits(self.settings.mode, flag) + 1,
            None => 4 * u8::from(flag),
        };
        output + 2 * u8::from(self.dialog.input.is_some())
    }

    pub(super) fn irqs(&self) -> (bool, bool)
        ensures { result ≡ interrupts (state_of B.Bank.values self.now) }
    {
        let Some(shown) = self.output else {
            return (false, false);
        };
        let aux = shown.is_aux();
        let command = self.settings.command;
        (!aux && command & IRQ_1 != 0, aux && command & IRQ_12 != 0)
    }

    pub(super) fn read(&mut self) -> Result<u8, Refusal>
        ensures value { result ≡ read_answer (state_of B.Bank.values self.old) }
        ensures after { state_of B.Bank.values self.new ≡ read_after (state_of B.Bank.values self.old) }
    {
        let shown = self.output.take().ok_or(Refusal::OutputEmpty)?;
        Ok(shown.entry.shown())
    }

    pub(super) fn accept_command(&mut self, byte: u8) -> Result<(), Refusal>
        ensures value { result ≡ command_answer byte (state_of B.Bank.values self.old) }
        ensures after { state_of B.Bank.values self.new ≡ command_after byte (state_of B.Bank.values self.old) }
    {
        let command = Command::decode(byte, self.dialog.awaited).ok_or(Refusal::UnknownCommand)?;
        if self.dialog.input.is_some() {
            return Err(Refusal::InputFull);
        }
        match command {
            Command::Await(Some(Awaited::Route(_))) if self.settings.mode == Mode::Legacy => {
                Err(Refusal::PrefixInLegacy)
            }
            _ => {
                self.dialog.input = Some(HostByte::Command(command));
                Ok(())
            }
        }
    }

    pub(super) fn accept_data(&mut self, byte: u8) -> Result<(), Refusal>
        ensures value { result ≡ data_answer (state_of B.Bank.values self.old) }
        ensures after { state_of B.Bank.values self.new ≡ data_after byte (state_of B.Bank.values self.old) }
    {
        if self.dialog.input.is_some() {
            return Err(Refusal::InputFull);
        }
        self.dialog.input = Some(HostByte::Data(byte));
        Ok(())
    }

    pub(super) fn tell(&mut self, number: u8, event: Event<'_>) -> Result<(), Refusal>
        ensures value { result ≡ event_answer number (told event.entry) (state_of B.Bank.values self.old) }
        ensures after { state_of B.Bank.values self.new ≡ event_after number (told event.entry) (state_of B.Bank.values self.old) }
    {
        let line = Line::with_device(number).ok_or(Refusal::NoSuchLine)?;
        if !event.is_in_range() {
            return Err(Refusal::FieldOutOfRange);
        }
        self.devices.event(line, event)
    }
}
