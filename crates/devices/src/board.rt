// A pickup board: keeps up to 16 stroke bytes, and acknowledges a host byte ahead of them.
ghost use Rattle.std.specs.Prelude.{◌≡◌};
ghost use Rattle.devices.specs.BoardRuns.{LosesNothing};
ghost use Rattle.devices.specs.Boards.{blank, board_model};

use arrayvec::ArrayVec;
use ps2::device::Device;
use ps2::entry::{ACKNOWLEDGE, Entry};
use ps2::event::Event;
use ps2::refusal::Refusal;
use std::mem;

const PLACES: usize = 16;

#[derive(Drop)]
pub struct Board {
    strokes: ArrayVec<u8, PLACES>,
    acknowledges: bool,
}

impl Board {
    // A board with nothing to say. Of what it accepts it loses nothing, until it is powered up again.
    #[tactic(auto, using(crate::proofs::Losing::loses_nothing))]
    pub fn new() -> Board
        ensures value { board_model.meaning result ≡ blank }
        ensures keeps { LosesNothing }
    {
        Board {
            strokes: ArrayVec::new(),
            acknowledges: false,
        }
    }
}

impl Device for Board {
    ghost model = { board_model };

    fn power_up(&mut self) {
        self.strokes.clear();
        self.acknowledges = false;
    }

    fn waits(&self) -> bool {
        self.acknowledges || !self.strokes.is_empty()
    }

    fn give(&mut self) -> Option<Entry> {
        if mem::replace(&mut self.acknowledges, false) {
            return Some(Entry::Byte(ACKNOWLEDGE));
        }
        self.strokes.pop_at(0).map(Entry::Byte)
    }

    fn receive(&mut self, _: u8) -> bool {
        if self.acknowledges {
            return false;
        }
        self.acknowledges = true;
        true
    }

    fn event(&mut self, event: Event<'_>) -> Result<(), Refusal> {
        match event {
            Event::Stroke(bytes) => self
                .strokes
                .try_extend_from_slice(bytes)
                .map_err(|_| Refusal::NoRoom),
            _ => Ok(()),
        }
    }
}
