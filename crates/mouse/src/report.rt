// What the mouse tells of its movement and its settings, as packets.
ghost use Rattle.std.specs.Prelude.{◌≡◌, ◌≤◌};
ghost use Rattle.mouse.specs.Reports.{sign, low, scaled_size, scaled, shown_buttons, head_byte, movement_packet, status_byte, status_packet};

use crate::counters::{Axis, Counters};
use crate::packet::Packet;
use crate::settings::{Identity, Mode, Settings};

// A size from the table of 2:1 scaling.
fn scaled_size(size: u16) -> u32
    ensures { result ≡ scaled_size size }
{
    match size {
        0 | 1 => u32::from(size),
        2 => 1,
        3 => 3,
        4 => 6,
        5 => 9,
        _ => 2 * u32::from(size),
    }
}

impl Axis {
    // As 2:1 scaling shows it: a size above 255 is 255 with the overflow bit.
    pub(crate) fn scaled(self) -> Axis
        ensures { result ≡ scaled self }
    {
        let size = scaled_size(self.count.unsigned_abs());
        let shown = size.min(255) as i16;
        Axis {
            count: if self.count < 0 { -shown } else { shown },
            overflow: self.overflow || size > 255,
        }
    }
}

fn sign_of(count: i16) -> u8
    ensures { result ≡ sign count }
{
    u8::from(count < 0)
}

fn low_byte(count: i16) -> u8
    ensures { result ≡ low count }
{
    let [low, _] = count.to_le_bytes();
    low
}

// Which buttons a packet can show: three, or five.
pub(crate) fn shown_buttons(id: Identity, buttons: u8) -> u8
    ensures { result ≡ shown_buttons id buttons }
{
    match id {
        Identity::FiveButtons => buttons % 32,
        _ => buttons % 8,
    }
}

fn head_byte(x: Axis, y: Axis, buttons: u8) -> u8
    ensures { result ≡ head_byte x y buttons }
{
    let signs = 16 * sign_of(x.count) + 32 * sign_of(y.count);
    let overflows = 64 * u8::from(x.overflow) + 128 * u8::from(y.overflow);
    buttons % 8 + 8 + signs + overflows
}

// A movement packet, in the form that the identity decides.
pub(crate) fn movement_packet(id: Identity, counters: Counters, buttons: u8) -> Packet
    ensures { result ≡ movement_packet id counters buttons }
{
    let head = head_byte(counters.x, counters.y, buttons);
    let x = low_byte(counters.x.count);
    let y = low_byte(counters.y.count);
    let wheel = counters.wheel.cast_unsigned();
    match id {
        Identity::Standard => Packet::Three(head, x, y),
        Identity::Wheel => Packet::Four(head, x, y, wheel),
        Identity::FiveButtons => Packet::Four(head, x, y, wheel % 16 + 16 * (buttons / 8 % 4)),
    }
}

fn status_byte(settings: Settings, buttons: u8) -> u8
    ensures { result ≡ status_byte settings buttons }
{
    let remote = 64 * u8::from(settings.mode == Mode::Remote);
    let set = 32 * u8::from(settings.reporting) + 16 * u8::from(settings.doubled);
    remote + set + 4 * (buttons % 2) + 2 * (buttons / 4 % 2) + buttons / 2 % 2
}

// Settings, sampled buttons, resolution and rate.
pub(crate) fn status_packet(settings: Settings, buttons: u8) -> Packet
    ensures { result ≡ status_packet settings buttons }
{
    Packet::Three(
        status_byte(settings, buttons),
        settings.resolution,
        settings.rate,
    )
}
