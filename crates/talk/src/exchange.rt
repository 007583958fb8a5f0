// A talk with a mouse, as text.
ghost use Rattle.std.specs.Prelude.{◌≡◌, ◌∷◌, ◌++◌, IfOk, Ok, Err, string_bytes, MatchResult, OnOk};
ghost use Rattle.ps2.specs.Entries.{shows};
ghost use Rattle.text.specs.Hex.{hex};
ghost use Rattle.talk.specs.Steps.{step_of};
ghost use Rattle.talk.specs.Exchanged.{acted, playing, answer, drained, any_answer, any_drained, played_line, step_line, left_by, fault_line, taken, exchanged};
ghost use Rattle.talk.specs.TalkLaws.{Laws};

use crate::fault::Fault;
use crate::parse::step_of;
use crate::step::Step;
use mouse::mouse::Mouse;
use ps2::device::Device;
use ps2::entry::Entry;
use ps2::event::Event;
use std::alloc::{AllocError, Global};
use text::Hex;

// Text and mouse stay two parameters: a struct of both would be lent in halves, the text for a line and the mouse for a
// step. What is added to a text is said as in `report`.

// What a step does to a mouse that is there.
fn act(mouse: &mut Mouse, step: Step)
    ensures { mouse.new ≡ acted step mouse.old }
{
    match step {
        Step::Note => {}
        Step::Power(variant) => *mouse = Mouse::new(variant),
        Step::Host(byte) => {
            mouse.receive(byte);
        }
        Step::Move(movement) => {
            let _ = mouse.event(Event::Movement(movement));
        }
    }
}

// What a step makes of the mouse, if there is one.
fn play(mouse: &mut Option<Mouse>, step: Step) -> Result<(), Fault>
    ensures { MatchResult result (λ _. playing step mouse.old ≡ Ok mouse.new) (λ f. playing step mouse.old ≡ Err f) }
{
    if let Some(mouse) = mouse {
        act(mouse, step);
        return Ok(());
    }
    match step {
        Step::Note => Ok(()),
        Step::Power(variant) => {
            *mouse = Some(Mouse::new(variant));
            Ok(())
        }
        Step::Host(_) | Step::Move(_) => Err(Fault::NoMouse),
    }
}

fn write_entry(text: &mut String, entry: Entry) -> Result<(), AllocError>
    ensures { OnOk result (string_bytes text.new ≡ string_bytes text.old ++ (32 ∷ hex (shows entry))) }
{
    write!(text, " {}", Hex(entry.shown()))
}

// All that waits in the mouse, written.
fn drain(text: &mut String, mouse: &mut Mouse) -> Result<(), AllocError>
    ensures { OnOk result ((string_bytes text.new ≡ string_bytes text.old ++ answer mouse.old) × (mouse.new ≡ drained mouse.old)) }
{
    while let Some(entry) = mouse.give() {
        write_entry(text, entry)?;
    }
    Ok(())
}

fn write_answer(text: &mut String, mouse: &mut Option<Mouse>) -> Result<(), AllocError>
    ensures { OnOk result ((string_bytes text.new ≡ string_bytes text.old ++ any_answer mouse.old) × (mouse.new ≡ any_drained mouse.old)) }
{
    match mouse {
        Some(mouse) => drain(text, mouse),
        None => Ok(()),
    }
}

fn write_played(text: &mut String, mouse: &mut Option<Mouse>, step: Step) -> Result<(), AllocError>
    ensures { OnOk result ((string_bytes text.new ≡ string_bytes text.old ++ played_line step mouse.old) × (mouse.new ≡ any_drained mouse.old)) }
{
    write!(text, "{step} ->")?;
    write_answer(text, mouse)?;
    write!(text, "\n")
}

// The line of a step; what waits in the mouse is given.
fn write_step(
    text: &mut String,
    mouse: &mut Option<Mouse>,
    line: &str,
    step: Step,
) -> Result<(), AllocError>
    ensures { OnOk result ((string_bytes text.new ≡ string_bytes text.old ++ step_line line.now step mouse.old) × (mouse.new ≡ left_by step mouse.old)) }
{
    match step {
        Step::Note => write!(text, "{line}\n"),
        Step::Power(_) | Step::Host(_) | Step::Move(_) => write_played(text, mouse, step),
    }
}

fn write_fault(text: &mut String, number: usize, fault: Fault) -> Result<(), AllocError>
    ensures { OnOk result (string_bytes text.new ≡ string_bytes text.old ++ fault_line number fault) }
{
    write!(text, "line {number}: {fault}\n")
}

// Reads a line and does what it asks for.
fn take_line(mouse: &mut Option<Mouse>, line: &str) -> Result<Step, Fault>
    ensures { MatchResult result (λ s. taken (step_of line.now) mouse.old ≡ Ok (s, mouse.new)) (λ f. taken (step_of line.now) mouse.old ≡ Err f) }
{
    let step = step_of(line)?;
    play(mouse, step)?;
    Ok(step)
}

// The lines of a text, up to its end or the first fault.
fn write_lines(text: &mut String, input: &str) -> Result<(), AllocError>
    ensures { OnOk result (string_bytes text.new ≡ string_bytes text.old ++ exchanged input.now) }
{
    let mut mouse = None;
    for (index, line) in input.split_terminator('\n').enumerate() {
        match take_line(&mut mouse, line) {
            Ok(step) => write_step(text, &mut mouse, line, step)?,
            Err(fault) => return write_fault(text, index + 1, fault),
        }
    }
    Ok(())
}

fn text_of(heap: Global, input: &str) -> Result<String, AllocError>
    ensures { IfOk result (λ t. string_bytes t ≡ exchanged input.now) }
{
    let mut text = String::new(heap);
    write_lines(&mut text, input)?;
    Ok(text)
}

// A talk with a mouse: each line of the input with what the mouse gives then.
#[tactic(auto, using(crate::proofs::ReadBack::laws))]
pub fn exchange(heap: Global, input: &str) -> Result<String, AllocError>
    ensures text { IfOk result (λ t. string_bytes t ≡ exchanged input.now) }
    ensures laws { Laws }
{
    text_of(heap, input)
}
