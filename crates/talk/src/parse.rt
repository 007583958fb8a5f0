// What a line asks for.
ghost use Rattle.std.specs.Prelude.{◌≡◌};
ghost use Rattle.talk.specs.Texts.{before, behind};
ghost use Rattle.talk.specs.Numbers.{byte_of};
ghost use Rattle.talk.specs.Steps.{ranged, move_of, host_of, action_of, is_note, step_of};

use crate::fault::Fault;
use crate::number::{byte, count, number};
use crate::step::Step;
use mouse::settings::Variant;
use ps2::event::Movement;

// A text up to its first space, and what follows that.
fn cut(text: &str) -> (&str, &str)
    ensures front { result.0.now ≡ before 32 text.now }
    ensures back { result.1.now ≡ behind 32 text.now }
{
    text.split_once(' ').unwrap_or((text, ""))
}

fn ranged_step(movement: Movement) -> Result<Step, Fault>
    ensures { result ≡ ranged movement }
{
    if movement.is_in_range() {
        Ok(Step::Move(movement))
    } else {
        Err(Fault::OutOfRange)
    }
}

fn move_step(text: &str) -> Result<Step, Fault>
    ensures { result ≡ move_of text.now }
{
    let (dx, rest) = cut(text);
    let (dy, rest) = cut(rest);
    let (wheel, buttons) = cut(rest);
    let (Some(dx), Some(dy), Some(wheel), Some(buttons)) = (
        number(dx.as_bytes()),
        number(dy.as_bytes()),
        number(wheel.as_bytes()),
        count(buttons.as_bytes()),
    ) else {
        return Err(Fault::BadMovement);
    };
    let (Ok(wheel), Ok(buttons)) = (i8::try_from(wheel), u8::try_from(buttons.get())) else {
        return Err(Fault::OutOfRange);
    };
    let movement = Movement {
        dx,
        dy,
        wheel,
        buttons,
    };
    ranged_step(movement)
}

fn host_step(text: &str) -> Result<Step, Fault>
    ensures { result ≡ host_of (byte_of text.now) }
{
    byte(text.as_bytes()).map(Step::Host).ok_or(Fault::BadByte)
}

// An action: its word, and what is behind it.
fn action(line: &str) -> Result<Step, Fault>
    ensures { result ≡ action_of (before 32 line.now) (behind 32 line.now) }
{
    let (word, rest) = cut(line);
    match word {
        "host" => host_step(rest),
        "move" => move_step(rest),
        _ => Err(Fault::UnknownWord),
    }
}

fn is_note(line: &str) -> bool
    ensures { result ≡ is_note line.now }
{
    matches!(line.as_bytes(), [] | [b'#', ..])
}

// What a line asks for.
pub(crate) fn step_of(line: &str) -> Result<Step, Fault>
    ensures { result ≡ step_of line.now }
{
    if is_note(line) {
        return Ok(Step::Note);
    }
    match line {
        "plain" => Ok(Step::Power(Variant::Plain)),
        "wheel" => Ok(Step::Power(Variant::Wheel)),
        _ => action(line),
    }
}
