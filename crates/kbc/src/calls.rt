// A keyboard controller as its host and its cables see it. Each call carries the law of runs: behind every history of
// calls that leads from a new controller, while it multiplexes, the bytes of each port are its device's own, and no
// port starves.
ghost use Rattle.std.specs.Prelude.{◌≡◌};
ghost use Rattle.ps2.specs.Events.{told};
ghost use Rattle.rules.specs.Banks.{Kinds};
ghost use Rattle.rules.specs.States.{State};
ghost use Rattle.rules.specs.Status.{status, interrupts};
ghost use Rattle.rules.specs.Turns.{turn_answer, turn_after};
ghost use Rattle.rules.specs.Calls.{read_answer, read_after, command_answer, command_after, data_answer, data_after, event_answer, event_after};
ghost use Rattle.rules.specs.Histories.{status_read, data_read, command_write, data_write, happens, turn};
ghost use Rattle.rules.specs.Law.{Kept, Stands};

use parts::lines::Line;
use parts::output::Carried;
use ps2::event::Event;
use ps2::refusal::Refusal;

pub trait KeyboardController {
    ghost kinds: { Kinds };

    ghost state: { Self → State kinds };

    // The byte at port 64h.
    fn read_status(&self) -> u8
        ensures value { result ≡ status (state self.now) }
        ensures runs { Kept (state self.now) (status_read result) (state self.now) };

    // Whether IRQ 1 and IRQ 12 are up.
    fn interrupts(&self) -> (bool, bool)
        ensures value { result ≡ interrupts (state self.now) }
        ensures runs { Stands (state self.now) };

    // Reads port 60h.
    fn read_data(&mut self) -> Result<u8, Refusal>
        ensures value { result ≡ read_answer (state self.old) }
        ensures after { state self.new ≡ read_after (state self.old) }
        ensures runs { Kept (state self.old) (data_read result) (state self.new) };

    // Writes port 64h.
    fn write_command(&mut self, byte: u8) -> Result<(), Refusal>
        ensures value { result ≡ command_answer byte (state self.old) }
        ensures after { state self.new ≡ command_after byte (state self.old) }
        ensures runs { Kept (state self.old) (command_write byte result) (state self.new) };

    // Writes port 60h.
    fn write_data(&mut self, byte: u8) -> Result<(), Refusal>
        ensures value { result ≡ data_answer (state self.old) }
        ensures after { state self.new ≡ data_after byte (state self.old) }
        ensures runs { Kept (state self.old) (data_write byte result) (state self.new) };

    // Something that happens to the device of a line, by its number: one without a device is to be refused.
    fn event(&mut self, line: u8, event: Event<'_>) -> Result<(), Refusal>
        ensures value { result ≡ event_answer line (told event.entry) (state self.old) }
        ensures after { state self.new ≡ event_after line (told event.entry) (state self.old) }
        ensures runs { Kept (state self.old) (happens line (told event.entry) result) (state self.new) };

    // What became of the host byte, and the line from which the output buffer was filled.
    fn turn(&mut self) -> (Carried, Option<Line>)
        ensures value { result ≡ turn_answer (state self.old) }
        ensures after { state self.new ≡ turn_after (state self.old) }
        ensures runs { Kept (state self.old) (turn result.0 result.1) (state self.new) };
}
