// The devices behind the lines, whatever they are.
ghost use Rattle.std.specs.Prelude.{◌≡◌};
ghost use Rattle.ps2.specs.Events.{told};
ghost use Rattle.ps2.specs.Kinds.{chosen, room_answer};
ghost use Rattle.rules.specs.Banks.{Kinds, Values, powered};
ghost use Rattle.rules.specs.Sending.{takes_at, received_at};
ghost use Rattle.rules.specs.Turns.{waits_at, first_at, given_at};
ghost use Rattle.rules.specs.Calls.{room_at, happened_at};

use parts::lines::Line;
use ps2::entry::Entry;
use ps2::event::Event;
use ps2::refusal::Refusal;

pub trait Bank {
    ghost kinds: { Kinds };

    ghost values: { Self → Values kinds };

    fn power_up(&mut self)
        ensures { values self.new ≡ powered (values self.old) };

    fn waits(&self, line: Line) -> bool
        ensures { result ≡ waits_at (values self.now) line };

    fn give(&mut self, line: Line) -> Option<Entry>
        ensures value { result ≡ first_at (values self.old) line }
        ensures after { values self.new ≡ given_at (values self.old) line };

    fn receive(&mut self, line: Line, byte: u8) -> bool
        ensures value { result ≡ takes_at (values self.old) line byte }
        ensures after { values self.new ≡ chosen (takes_at (values self.old) line byte) (received_at (values self.old) line byte) (values self.old) };

    fn event(&mut self, line: Line, event: Event<'_>) -> Result<(), Refusal>
        ensures value { result ≡ room_answer (room_at (values self.old) line (told event.entry)) }
        ensures after { values self.new ≡ chosen (room_at (values self.old) line (told event.entry)) (happened_at (values self.old) line (told event.entry)) (values self.old) };
}
