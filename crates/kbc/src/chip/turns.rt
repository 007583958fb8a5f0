// A turn of the controller.
ghost use Rattle.std.specs.Prelude.{◌≡◌};
ghost use Rattle.rules.specs.Turns.{turn_answer, turn_after};
ghost use Rattle.kbc.specs.Chips.{state_of};

use super::Chip;
use bank::bank::Bank;
use parts::lines::Line;
use parts::output::Carried;

impl<B: Bank> Chip<B> {
    // First the waiting host byte; then, unless the mode changed, an empty output buffer is filled.
    pub(super) fn advance(&mut self) -> (Carried, Option<Line>)
        ensures value { result ≡ turn_answer (state_of B.Bank.values self.old) }
        ensures after { state_of B.Bank.values self.new ≡ turn_after (state_of B.Bank.values self.old) }
    {
        let carried = self.carry_out();
        match carried {
            Carried::NowMultiplexed | Carried::NowLegacy => (carried, None),
            Carried::NoByte | Carried::Stays | Carried::CarriedOut => (carried, self.fill()),
        }
    }
}
