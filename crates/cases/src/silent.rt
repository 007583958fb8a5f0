// A device that takes nothing and keeps nothing. It is lawful.
ghost use Rattle.cases.specs.Silent.{silent_model};

use ps2::device::Device;
use ps2::entry::Entry;
use ps2::event::Event;
use ps2::refusal::Refusal;

#[derive(Drop)]
pub struct Silent;

impl Device for Silent {
    ghost model = { silent_model };

    fn power_up(&mut self) {}

    fn waits(&self) -> bool {
        false
    }

    fn give(&mut self) -> Option<Entry> {
        None
    }

    fn receive(&mut self, _: u8) -> bool {
        false
    }

    fn event(&mut self, _: Event<'_>) -> Result<(), Refusal> {
        Ok(())
    }
}
