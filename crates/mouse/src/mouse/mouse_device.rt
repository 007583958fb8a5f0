// The mouse as a device.
ghost use Rattle.std.specs.Prelude.{◌≡◌};
ghost use Rattle.mouse.specs.MouseKind.{mouse_model};

use super::{Mouse, begun};
use ps2::device::Device;
use ps2::entry::{ACKNOWLEDGE, Entry};
use ps2::event::Event;
use ps2::refusal::Refusal;
use std::mem;

impl Device for Mouse {
    ghost model = { mouse_model };

    fn power_up(&mut self) {
        *self = begun(self.variant, false);
    }

    // This and giving are a board's but for the packet: one form for both would need a trait for its two calls.
    fn waits(&self) -> bool {
        self.answer.acknowledges || !self.answer.packet.is_empty()
    }

    fn give(&mut self) -> Option<Entry> {
        if mem::replace(&mut self.answer.acknowledges, false) {
            return Some(Entry::Byte(ACKNOWLEDGE));
        }
        self.answer.packet.pop().map(Entry::Byte)
    }

    // Every byte is taken.
    fn receive(&mut self, byte: u8) -> bool {
        self.hear(byte);
        true
    }

    fn event(&mut self, event: Event<'_>) -> Result<(), Refusal> {
        if let Event::Movement(movement) = event {
            self.shift(movement);
        }
        Ok(())
    }
}
