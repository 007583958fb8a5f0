// How far the mouse has moved since the last packet.
ghost use Rattle.std.specs.Prelude.{◌≡◌};
ghost use Rattle.mouse.specs.Counters.{axis_moved, wheel_moved};

// A counter from -255 to 255. Where it would pass, its flag is set, and it stays until it is reset: a packet shows both,
// so the flag stands beside the count.
#[derive(Clone, Copy)]
pub(crate) struct Axis {
    pub(crate) count: i16,
    pub(crate) overflow: bool,
}

#[derive(Clone, Copy)]
pub(crate) struct Counters {
    pub(crate) x: Axis,
    pub(crate) y: Axis,
    pub(crate) wheel: i8,
}

impl Axis {
    pub(crate) fn moved(self, by: i16) -> Axis
        ensures { result ≡ axis_moved self by }
    {
        if self.overflow {
            return self;
        }
        let sum = i32::from(self.count) + i32::from(by);
        if !(-255..=255).contains(&sum) {
            return Axis {
                count: self.count,
                overflow: true,
            };
        }
        Axis {
            count: sum as i16,
            overflow: false,
        }
    }
}

// The wheel's counter stops at -8 and 7.
pub(crate) fn wheel_moved(count: i8, by: i8) -> i8
    ensures { result ≡ wheel_moved count by }
{
    // saturating loses nothing: the clamp is narrower
    count.saturating_add(by).clamp(-8, 7)
}
