// What happens to a device from outside.
ghost use Rattle.std.specs.Prelude.{◌≡◌};
ghost use Rattle.ps2.specs.Events.{told, axis_in_range, wheel_in_range, movement_in_range, in_range};

// Buttons: bit 0 left, 1 right, 2 middle, 3 fourth, 4 fifth.
#[derive(Clone, Copy, PartialEq, Eq, Debug)]
pub struct Movement {
    pub dx: i16,
    pub dy: i16,
    pub wheel: i8,
    pub buttons: u8,
}

#[derive(Clone, Copy)]
pub enum Event<'a> {
    Movement(Movement),
    Stroke(&'a [u8]),
    Pull,
    Plug,
}

fn is_axis(counts: i16) -> bool
    ensures { result ≡ axis_in_range counts }
{
    (-255..=255).contains(&counts)
}

fn is_wheel(steps: i8) -> bool
    ensures { result ≡ wheel_in_range steps }
{
    (-8..=7).contains(&steps)
}

impl Movement {
    // Whether each field is one that a movement may have.
    pub fn is_in_range(self) -> bool
        ensures { result ≡ movement_in_range self.dx self.dy self.wheel self.buttons }
    {
        // in two steps: the check loses its way in a chain of four tests
        if !is_wheel(self.wheel) || self.buttons > 31 {
            return false;
        }
        is_axis(self.dx) && is_axis(self.dy)
    }
}

impl<'a> Event<'a> {
    // Whether each field is one that an event may have.
    pub fn is_in_range(self) -> bool
        ensures { result ≡ in_range (told self.entry) }
    {
        match self {
            Event::Movement(movement) => movement.is_in_range(),
            Event::Stroke(bytes) => (1..=16).contains(&bytes.len()),
            Event::Pull | Event::Plug => true,
        }
    }
}
