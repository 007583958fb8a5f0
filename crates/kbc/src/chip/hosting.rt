// What a host byte does.
ghost use Rattle.std.specs.Prelude.{◌≡◌};
ghost use Rattle.rules.specs.Hosting.{revert, answer, obey, argue, deliver, worked, blocked};
ghost use Rattle.rules.specs.Turns.{carried, hosted};
ghost use Rattle.kbc.specs.Chips.{state_of};

use super::Chip;
use bank::bank::Bank;
use parts::dialog::{Awaited, Command, HostByte, Place};
use parts::lines::{Line, Port};
use parts::output::Carried;
use parts::settings::Mode;
use ps2::entry::Entry;

const VERSION: u8 = 0x11;

const PORT_0: Line = Line::Aux(Port::P0);

impl<B: Bank> Chip<B> {
    // Falls back to Legacy mode; entries of the lines that it does not have are thrown away.
    fn revert(&mut self)
        ensures { state_of B.Bank.values self.new ≡ revert (state_of B.Bank.values self.old) }
    {
        self.settings.mode = Mode::Legacy;
        self.lines.revert();
        self.output = self.output.filter(|shown| shown.line.in_legacy());
    }

    fn answer(&mut self, byte: u8)
        ensures { state_of B.Bank.values self.new ≡ answer byte (state_of B.Bank.values self.old) }
    {
        self.hold(Line::Controller, Entry::Byte(byte));
    }

    fn obey(&mut self, command: Command)
        ensures { state_of B.Bank.values self.new ≡ obey command (state_of B.Bank.values self.old) }
    {
        match command {
            Command::ReadCommandByte => self.answer(self.settings.command),
            Command::Await(Some(Awaited::AuxSend)) => self.revert(),
            Command::Await(_) => {}
            Command::Disable(gate) => self.settings.disable(gate),
            Command::Enable(gate) => self.settings.enable(gate),
            Command::AuxTest => {
                self.revert();
                self.answer(0x00);
            }
            Command::SelfTest => {
                self.revert();
                self.dialog.place = Place::Zero;
                self.answer(0x55);
            }
            Command::KeyboardTest => self.answer(0x00),
        }
    }

    // An argument of the activation sequence; a switch of mode tells the version in its place.
    fn argue(&mut self, argument: u8)
        ensures { state_of B.Bank.values self.new ≡ argue argument (state_of B.Bank.values self.old) }
    {
        match self.dialog.argue(argument) {
            None => self.hold(PORT_0, Entry::Byte(argument)),
            Some(Mode::Multiplexed) => {
                self.settings.mode = Mode::Multiplexed;
                self.settings.disabled = [false; 4];
                self.hold(PORT_0, Entry::Byte(VERSION));
            }
            Some(Mode::Legacy) => {
                self.revert();
                self.hold(PORT_0, Entry::Byte(VERSION));
            }
        }
    }

    // A data byte goes to what awaits it.
    fn deliver(&mut self, byte: u8)
        ensures { state_of B.Bank.values self.new ≡ deliver self.old.dialog.awaited byte (state_of B.Bank.values self.old) }
    {
        match self.dialog.awaited {
            None => self.send(Line::Keyboard, byte),
            Some(Awaited::CommandByte) => self.settings.command = byte,
            Some(Awaited::KeyboardLoopback) => self.hold(Line::Keyboard, Entry::Byte(byte)),
            Some(Awaited::AuxLoopback) => self.argue(byte),
            Some(Awaited::AuxSend) => self.send(PORT_0, byte),
            Some(Awaited::Route(port)) => self.send(Line::Aux(port), byte),
        }
    }

    fn work(&mut self, byte: HostByte)
        ensures { state_of B.Bank.values self.new ≡ worked byte (state_of B.Bank.values self.old) }
    {
        match byte {
            HostByte::Command(command) => self.obey(command),
            HostByte::Data(byte) => self.deliver(byte),
        }
    }

    // Whether a host byte has to stay, since the held place that it needs is full.
    fn is_blocked(&self, byte: HostByte) -> bool
        ensures { result ≡ blocked byte (state_of B.Bank.values self.now) }
    {
        let needed = byte.needs(self.dialog.awaited);
        needed.is_some_and(|line| self.lines.held(line).is_some())
    }

    // Carries out the waiting host byte, if there is one and it need not stay.
    pub(super) fn carry_out(&mut self) -> Carried
        ensures value { result ≡ carried (state_of B.Bank.values self.old) }
        ensures after { state_of B.Bank.values self.new ≡ hosted (state_of B.Bank.values self.old) }
    {
        let Some(byte) = self.dialog.input else {
            return Carried::NoByte;
        };
        if self.is_blocked(byte) {
            return Carried::Stays;
        }
        let before = self.settings.mode;
        self.work(byte);
        self.dialog.input = None;
        self.dialog.awaited = byte.awaits();
        match (before, self.settings.mode) {
            (Mode::Legacy, Mode::Multiplexed) => Carried::NowMultiplexed,
            (Mode::Multiplexed, Mode::Legacy) => Carried::NowLegacy,
            _ => Carried::CarriedOut,
        }
    }
}
