// What the mouse makes of a movement.
ghost use Rattle.std.specs.Prelude.{◌≡◌};
ghost use Rattle.mouse.specs.Moving.{wheel_counted, sampled, axis_set, counters_set, silent, news, free, shown_counters, queued, reported, moved};

use super::{Answer, Awaited, Mouse, NO_MOVEMENT};
use crate::counters::{Axis, Counters, wheel_moved};
use crate::report::{movement_packet, shown_buttons};
use crate::settings::{Identity, Mode};
use ps2::event::Movement;

impl Axis {
    fn is_set(self) -> bool
        ensures { result ≡ axis_set self }
    {
        self.overflow || self.count != 0
    }
}

impl Counters {
    fn is_set(self) -> bool
        ensures { result ≡ counters_set self }
    {
        self.x.is_set() || self.y.is_set() || self.wheel != 0
    }

    // As a packet shows them, under 2:1 scaling or not.
    fn shown(self, doubled: bool) -> Counters
        ensures { result ≡ shown_counters doubled self }
    {
        if !doubled {
            return self;
        }
        Counters {
            x: self.x.scaled(),
            y: self.y.scaled(),
            wheel: self.wheel,
        }
    }
}

impl Identity {
    // The wheel counts where packets show it.
    fn wheel_counted(self, count: i8, by: i8) -> i8
        ensures { result ≡ wheel_counted self count by }
    {
        match self {
            Identity::Standard => count,
            Identity::Wheel | Identity::FiveButtons => wheel_moved(count, by),
        }
    }
}

impl Answer {
    fn is_silent(self) -> bool
        ensures { result ≡ silent self }
    {
        !self.acknowledges && self.packet.is_empty()
    }
}

impl Mouse {
    fn sample(&mut self, movement: Movement)
        ensures { self.new ≡ sampled self.old movement.dx movement.dy movement.wheel movement.buttons }
    {
        let counters = self.motion.counters;
        self.motion.buttons = movement.buttons;
        self.motion.counters = Counters {
            x: counters.x.moved(movement.dx),
            y: counters.y.moved(movement.dy),
            wheel: self.knock.id.wheel_counted(counters.wheel, movement.wheel),
        };
    }

    fn has_news(&self) -> bool
        ensures { result ≡ news self.now }
    {
        let shown = shown_buttons(self.knock.id, self.motion.buttons);
        self.motion.counters.is_set() || shown != self.motion.reported
    }

    fn is_free(&self) -> bool
        ensures { result ≡ free self.now }
    {
        self.settings.mode == Mode::Stream
            && self.awaited != Awaited::Echo
            && self.settings.reporting
            && self.answer.is_silent()
    }

    fn queue(&mut self)
        ensures { self.new ≡ queued self.old }
    {
        let id = self.knock.id;
        let shown = self.motion.counters.shown(self.settings.doubled);
        let packet = movement_packet(id, shown, self.motion.buttons);
        self.motion.counters = NO_MOVEMENT;
        self.motion.reported = shown_buttons(id, self.motion.buttons);
        self.answer = Answer {
            acknowledges: false,
            packet,
            last: packet,
        };
    }

    fn report(&mut self)
        ensures { self.new ≡ reported self.old }
    {
        if self.is_free() && self.has_news() {
            self.queue();
        }
    }

    pub(super) fn shift(&mut self, movement: Movement)
        ensures { self.new ≡ moved self.old movement.dx movement.dy movement.wheel movement.buttons }
    {
        self.sample(movement);
        self.report();
    }
}
