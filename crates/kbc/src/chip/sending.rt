// Entries that come to be held, and bytes that go to a device.
ghost use Rattle.std.specs.Prelude.{◌≡◌};
ghost use Rattle.rules.specs.Sending.{hold, send};
ghost use Rattle.kbc.specs.Chips.{state_of};

use super::Chip;
use bank::bank::Bank;
use parts::lines::Line;
use ps2::entry::Entry;

impl<B: Bank> Chip<B> {
    pub(super) fn hold(&mut self, line: Line, entry: Entry)
        ensures { state_of B.Bank.values self.new ≡ hold line entry (state_of B.Bank.values self.old) }
    {
        self.lines.put(line, Some(entry));
    }

    // Sends a byte to a line's device; where it is not taken, a timeout is held.
    pub(super) fn send(&mut self, line: Line, byte: u8)
        ensures { state_of B.Bank.values self.new ≡ send line byte (state_of B.Bank.values self.old) }
    {
        if !self.devices.receive(line, byte) {
            self.hold(line, Entry::Timeout);
        }
    }
}
