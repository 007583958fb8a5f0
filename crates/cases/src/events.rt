// Events for the cases.
use ps2::event::{Event, Movement};

pub(crate) fn movement(dx: i16, dy: i16, wheel: i8, buttons: u8) -> Event<'static> {
    Event::Movement(Movement {
        dx,
        dy,
        wheel,
        buttons,
    })
}

pub(crate) fn stroke(bytes: &[u8]) -> Event<'_> {
    Event::Stroke(bytes)
}
