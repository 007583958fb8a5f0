// The arbiter: from which line the output buffer is filled.
ghost use Rattle.std.specs.Prelude.{◌≡◌};
ghost use Rattle.parts.specs.Held.{held_at};
ghost use Rattle.rules.specs.Arbiter.{first_of};
ghost use Rattle.rules.specs.Turns.{gives, taken_from, taken_to, fill_line, filled};
ghost use Rattle.kbc.specs.Chips.{state_of};

use super::Chip;
use bank::bank::Bank;
use parts::lines::Line;
use parts::output::Shown;
use ps2::entry::Entry;

const LINES: u8 = 6;

impl<B: Bank> Chip<B> {
    // Whether a line has something to give.
    fn has(&self, line: Line) -> bool
        ensures { result ≡ gives (state_of B.Bank.values self.now) line }
    {
        self.lines.held(line).is_some() || (self.settings.is_open(line) && self.devices.waits(line))
    }

    // The first line that has something to give, from the arbiter's upward. The project asks for a `loop` that yields
    // it by `break`, so the lines left are counted by hand.
    fn find(&self) -> Option<Line>
        ensures { result ≡ first_of (gives (state_of B.Bank.values self.now)) 6 self.now.next }
    {
        let mut line = self.next;
        let mut left = LINES;
        loop {
            if left == 0 {
                break None;
            }
            if self.has(line) {
                break Some(line);
            }
            line = line.after();
            left -= 1;
        }
    }

    // The entry of a line, the held one first.
    fn take(&mut self, line: Line) -> Option<Entry>
        ensures value { result ≡ taken_from (held_at (state_of B.Bank.values self.old).held line) (state_of B.Bank.values self.old) line }
        ensures after { state_of B.Bank.values self.new ≡ taken_to (held_at (state_of B.Bank.values self.old).held line) (state_of B.Bank.values self.old) line }
    {
        if let Some(entry) = self.lines.held(line) {
            self.lines.put(line, None);
            return Some(entry);
        }
        self.devices.give(line)
    }

    // Fills an empty output buffer, and answers the line that it came from.
    pub(super) fn fill(&mut self) -> Option<Line>
        ensures value { result ≡ fill_line (state_of B.Bank.values self.old) }
        ensures after { state_of B.Bank.values self.new ≡ filled (state_of B.Bank.values self.old) }
    {
        if self.output.is_some() {
            return None;
        }
        let line = self.find()?;
        let entry = self.take(line)?;
        self.output = Some(Shown { line, entry });
        self.next = line.after();
        Some(line)
    }
}
