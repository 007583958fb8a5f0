// A record of a session, played on a controller.
ghost use Rattle.std.specs.Prelude.{◌≡◌};
ghost use Rattle.session.specs.Records.{item_of};
ghost use Rattle.player.specs.Plays.{action_by, told_action, shown, reply_to, played_to, Plays};

use crate::reply::Reply;
use kbc::calls::KeyboardController;
use ps2::event::Event;
use ps2::refusal::Refusal;
use session::record_kinds::Record;

// The event of a cable record. Of a bad one the line comes first, then the field.
fn action(line: u8, number: u8) -> Result<Event<'static>, Refusal>
    ensures { told_action result ≡ action_by line number }
{
    match number {
        0 => Ok(Event::Pull),
        1 => Ok(Event::Plug),
        _ if line > 4 => Err(Refusal::NoSuchLine),
        _ => Err(Refusal::FieldOutOfRange),
    }
}

fn perform<C: KeyboardController>(controller: &mut C, item: Record<'_>) -> Result<Reply, Refusal>
    ensures value { shown result ≡ reply_to (item_of item.entry) (C.KeyboardController.state controller.old) }
    ensures after { C.KeyboardController.state controller.new ≡ played_to (item_of item.entry) (C.KeyboardController.state controller.old) }
{
    let (line, event) = match item {
        Record::CommandWrite(byte) => return controller.write_command(byte).map(|_| Reply::Done),
        Record::DataWrite(byte) => return controller.write_data(byte).map(|_| Reply::Done),
        Record::StatusRead => return Ok(Reply::Byte(controller.read_status())),
        Record::DataRead => return controller.read_data().map(Reply::Byte),
        Record::Turn => {
            let (carried, line) = controller.turn();
            return Ok(Reply::Turned(carried, line));
        }
        Record::Movement { line, movement } => (line, Event::Movement(movement)),
        Record::Stroke { line, bytes } => (line, Event::Stroke(bytes)),
        Record::Cable {
            line,
            action: number,
        } => (line, action(line, number)?),
    };
    controller.event(line, event).map(|_| Reply::Done)
}

// Plays one record, and answers what its line shows.
#[tactic(auto, using(crate::proofs::Playing::plays))]
pub fn play<C: KeyboardController>(controller: &mut C, item: Record<'_>) -> Reply
    ensures value { result ≡ reply_to (item_of item.entry) (C.KeyboardController.state controller.old) }
    ensures after { C.KeyboardController.state controller.new ≡ played_to (item_of item.entry) (C.KeyboardController.state controller.old) }
    ensures runs { Plays (C.KeyboardController.state controller.old) (item_of item.entry) (C.KeyboardController.state controller.new) }
{
    perform(controller, item).unwrap_or_else(Reply::Refused)
}
