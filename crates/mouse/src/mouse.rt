// A PS/2 mouse: what it keeps, and what becomes of it.
ghost use Rattle.std.specs.Prelude.{◌≡◌, false};
ghost use Rattle.mouse.specs.Mice.{began};
ghost use Rattle.mouse.specs.MouseLaws.{Laws};

use crate::counters::{Axis, Counters};
use crate::packet::Packet;
use crate::settings::{Identity, Knock, Settings, Variant};

mod hearing;
mod mouse_device;
mod moving;

// What the next byte from the host is taken for, unless it is a Reset.
#[derive(Clone, Copy, PartialEq, Eq)]
enum Awaited {
    Command,
    Rate,
    Resolution,
    // Wrap mode: it is echoed
    Echo,
}

// What was sampled since the last packet, and the buttons that were last reported.
#[derive(Clone, Copy)]
struct Motion {
    counters: Counters,
    buttons: u8,
    reported: u8,
}

// What waits for the host, an acknowledge first; and the last packet queued, which a Resend repeats.
#[derive(Clone, Copy)]
struct Answer {
    acknowledges: bool,
    packet: Packet,
    last: Packet,
}

#[derive(Drop)]
pub struct Mouse {
    variant: Variant,
    settings: Settings,
    awaited: Awaited,
    knock: Knock,
    motion: Motion,
    answer: Answer,
}

const STILL: Axis = Axis {
    count: 0,
    overflow: false,
};

const NO_MOVEMENT: Counters = Counters {
    x: STILL,
    y: STILL,
    wheel: 0,
};

const SELF_TEST_PASSED: Packet = Packet::Two(0xAA, 0x00);

impl Mouse {
    // A mouse that was just powered up.
    #[tactic(auto, using(crate::proofs::Laws::laws))]
    pub fn new(variant: Variant) -> Mouse
        ensures value { result ≡ began variant false }
        ensures laws { Laws }
    {
        begun(variant, false)
    }
}

// A mouse as power-up or a Reset leaves it; a Reset acknowledges first.
fn begun(variant: Variant, acknowledges: bool) -> Mouse
    ensures { result ≡ began variant acknowledges }
{
    Mouse {
        variant,
        settings: Settings::defaults(),
        awaited: Awaited::Command,
        knock: Knock {
            id: Identity::Standard,
            rates: (0, 0, 0),
        },
        motion: Motion {
            counters: NO_MOVEMENT,
            buttons: 0,
            reported: 0,
        },
        answer: Answer {
            acknowledges,
            packet: SELF_TEST_PASSED,
            last: Packet::Empty,
        },
    }
}
