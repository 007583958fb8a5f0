// Any device on a line. Its model says what it means; each method becomes what the model tells.
ghost use Rattle.std.specs.Prelude.{◌≡◌};
ghost use Rattle.ps2.specs.Events.{told};
ghost use Rattle.ps2.specs.Kinds.{Model, nonempty, first, chosen, room_answer};

use crate::entry::Entry;
use crate::event::Event;
use crate::refusal::Refusal;

pub trait Device {
    ghost model: { Model Self };

    fn power_up(&mut self)
        ensures { model.meaning self.new ≡ model.kind.powered (model.meaning self.old) };

    // Whether an entry waits to be given.
    fn waits(&self) -> bool
        ensures { result ≡ nonempty (model.kind.waiting (model.meaning self.now)) };

    // The entry that waits first, if any.
    fn give(&mut self) -> Option<Entry>
        ensures value { result ≡ first (model.kind.waiting (model.meaning self.old)) }
        ensures after { model.meaning self.new ≡ model.kind.given (model.meaning self.old) };

    // A byte from the host: whether it is taken.
    fn receive(&mut self, byte: u8) -> bool
        ensures value { result ≡ model.kind.takes (model.meaning self.old) byte }
        ensures after { model.meaning self.new ≡ chosen (model.kind.takes (model.meaning self.old) byte) (model.kind.received (model.meaning self.old) byte) (model.meaning self.old) };

    // Something that happens to it: refused where there is no room for it.
    fn event(&mut self, event: Event<'_>) -> Result<(), Refusal>
        ensures value { result ≡ room_answer (model.kind.room (model.meaning self.old) (told event.entry)) }
        ensures after { model.meaning self.new ≡ chosen (model.kind.room (model.meaning self.old) (told event.entry)) (model.kind.happened (model.meaning self.old) (told event.entry)) (model.meaning self.old) };
}
