// What the mouse makes of a byte from the host.
ghost use Rattle.std.specs.Prelude.{◌≡◌};
ghost use Rattle.mouse.specs.Commands.{command_of};
ghost use Rattle.mouse.specs.Hearing.{replied, echoed, resent, data_read, commanded, obeyed, rated, resolved, argued, wrapped_heard, heard_in, heard};

use super::{Answer, Awaited, Mouse, NO_MOVEMENT, SELF_TEST_PASSED, begun};
use crate::command::Command;
use crate::packet::Packet;
use crate::report::{movement_packet, shown_buttons, status_packet};
use crate::settings::{Mode, Settings, is_rate};
use ps2::entry::ACKNOWLEDGE;

const RESET: u8 = 0xFF;

const RESET_WRAP: u8 = 0xEC;

impl Mouse {
    // An acknowledge, then a packet. Counters are reset.
    fn reply(&mut self, packet: Packet)
        ensures { self.new ≡ replied packet self.old }
    {
        self.motion.counters = NO_MOVEMENT;
        self.answer = Answer {
            acknowledges: true,
            packet,
            // a Resend repeats the packet without the acknowledge, or the acknowledge alone
            last: packet.or(Packet::One(ACKNOWLEDGE)),
        };
    }

    fn echo(&mut self, byte: u8)
        ensures { self.new ≡ echoed byte self.old }
    {
        let packet = Packet::One(byte);
        self.motion.counters = NO_MOVEMENT;
        self.answer = Answer {
            acknowledges: false,
            packet,
            last: packet,
        };
    }

    fn resend(&mut self)
        ensures { self.new ≡ resent self.old }
    {
        self.answer.acknowledges = false;
        self.answer.packet = self.answer.last.or(SELF_TEST_PASSED);
    }

    fn read_data(&mut self)
        ensures { self.new ≡ data_read self.old }
    {
        let id = self.knock.id;
        let packet = movement_packet(id, self.motion.counters, self.motion.buttons);
        self.motion.reported = shown_buttons(id, self.motion.buttons);
        self.reply(packet);
    }

    fn carry_out(&mut self, command: Command)
        ensures { self.new ≡ commanded command self.old }
    {
        match command {
            Command::Resend => return self.resend(),
            Command::ReadData => return self.read_data(),
            Command::StatusRequest => {
                return self.reply(status_packet(self.settings, self.motion.buttons));
            }
            Command::GetId => return self.reply(Packet::One(self.knock.id.number())),
            Command::Scale1To1 => self.settings.doubled = false,
            Command::Scale2To1 => self.settings.doubled = true,
            Command::SetResolution => self.awaited = Awaited::Resolution,
            Command::SetRate => self.awaited = Awaited::Rate,
            Command::SetStream => self.settings.mode = Mode::Stream,
            Command::SetRemote => self.settings.mode = Mode::Remote,
            Command::SetWrap => self.awaited = Awaited::Echo,
            Command::Enable => self.settings.reporting = true,
            Command::Disable => self.settings.reporting = false,
            Command::SetDefaults => self.settings = Settings::defaults(),
            Command::ResetWrap => {}
        }
        self.reply(Packet::Empty)
    }

    // A byte in a command's place. An unlisted one sets nothing.
    fn obey(&mut self, byte: u8)
        ensures { self.new ≡ obeyed (command_of byte) self.old }
    {
        match Command::of(byte) {
            Some(command) => self.carry_out(command),
            None => self.reply(Packet::Empty),
        }
    }

    fn set_rate(&mut self, rate: u8)
        ensures { self.new ≡ rated rate self.old }
    {
        if is_rate(rate) {
            self.settings.rate = rate;
            self.knock = self.knock.after(self.variant, rate);
        }
    }

    fn set_resolution(&mut self, code: u8)
        ensures { self.new ≡ resolved code self.old }
    {
        if code <= 3 {
            self.settings.resolution = code;
        }
    }

    fn end_argument(&mut self)
        ensures { self.new ≡ argued self.old }
    {
        self.awaited = Awaited::Command;
        self.reply(Packet::Empty)
    }

    fn hear_wrapped(&mut self, byte: u8)
        ensures { self.new ≡ wrapped_heard byte self.old }
    {
        if byte == RESET_WRAP {
            self.awaited = Awaited::Command;
            self.reply(Packet::Empty)
        } else {
            self.echo(byte)
        }
    }

    // A byte that is no Reset.
    fn hear_on(&mut self, byte: u8)
        ensures { self.new ≡ heard_in self.old.awaited byte self.old }
    {
        match self.awaited {
            Awaited::Command => self.obey(byte),
            Awaited::Rate => {
                self.set_rate(byte);
                self.end_argument()
            }
            Awaited::Resolution => {
                self.set_resolution(byte);
                self.end_argument()
            }
            Awaited::Echo => self.hear_wrapped(byte),
        }
    }

    pub(super) fn hear(&mut self, byte: u8)
        ensures { self.new ≡ heard self.old byte }
    {
        if byte == RESET {
            *self = begun(self.variant, true);
        } else {
            self.hear_on(byte)
        }
    }
}
