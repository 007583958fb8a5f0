// A step of a talk: a note, or something that is done to the mouse.
ghost use Rattle.std.specs.Prelude.{◌≡◌, Some};
ghost use Rattle.talk.specs.StepWords.{variant_words, step_words};

use mouse::settings::Variant;
use ps2::event::Movement;
use std::fmt;
use text::Hex;

#[derive(Clone, Copy)]
pub(crate) enum Step {
    Note,
    Power(Variant),
    Host(u8),
    Move(Movement),
}

// A model by its name.
fn name(variant: Variant) -> &'static str
    ensures { result.now ≡ variant_words variant }
{
    match variant {
        Variant::Plain => "plain",
        Variant::Wheel => "wheel",
    }
}

impl fmt::Display for Step {
    ghost output = { λ s. Some (step_words s) };

    fn fmt<W: fmt::Write>(&self, f: &mut fmt::Formatter<W>) -> fmt::Result {
        match *self {
            Step::Note => Ok(()),
            Step::Power(variant) => f.write_str(name(variant)),
            Step::Host(byte) => write!(f, "host {}", Hex(byte)),
            Step::Move(m) => write!(f, "move {} {} {} {}", m.dx, m.dy, m.wheel, m.buttons),
        }
    }
}
