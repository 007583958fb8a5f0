// A whole session file, played on a new controller.
ghost use Rattle.std.specs.Prelude.{◌≡◌, ◌≤◌, ◌++◌, IfOk, string_bytes, OnOk};
ghost use Rattle.session.specs.Files.{session, session_of, refused};
ghost use Rattle.session.specs.Readers.{file_of, left_of, AtStart};
ghost use Rattle.rules.specs.States.{power_on};
ghost use Rattle.controller.specs.Controllers.{state_by};
ghost use Rattle.devices.specs.Boards.{board_model};
ghost use Rattle.devices.specs.Cables.{cable_model};
ghost use Rattle.mouse.specs.MouseKind.{mouse_model};
ghost use Rattle.player.specs.Transcripts.{end_line, lines_of, tower_devices, transcript, Runs};

use crate::play::play;
use crate::reply::{Reply, write_line};
use controller::Controller;
use devices::board::Board;
use devices::cable::Cable;
use kbc::calls::KeyboardController;
use mouse::mouse::Mouse;
use mouse::settings::Variant;
use ps2::refusal::Refusal;
use session::reader::Reader;
use std::alloc::{AllocError, Global};

// The line of a record that ends the run.
fn write_refused(text: &mut String, before: usize, refusal: Refusal) -> Result<(), AllocError>
    requires { before ≤ 65536 }
    ensures { OnOk result (string_bytes text.new ≡ string_bytes text.old ++ end_line before (refused refusal)) }
{
    write_line(text, before + 1, Reply::Refused(refusal))
}

// The lines of a file from a reader at its start. They are numbered by hand, since a reader is no iterator: a refusal
// leaves it where it was. Nothing is shared with `explain`: three closures, for a record, the end and a refusal, would stand for eight lines.
fn write_records<C: KeyboardController>(
    text: &mut String,
    controller: &mut C,
    mut reader: Reader<'_>,
) -> Result<(), AllocError>
    requires { AtStart (file_of reader) reader }
    ensures { OnOk result (string_bytes text.new ≡ string_bytes text.old ++ lines_of 0 (C.KeyboardController.state controller.old) (session (left_of reader.entry))) }
{
    let mut number = 0;
    loop {
        let found = match reader.next_record() {
            Ok(found) => found,
            Err(refusal) => return write_refused(text, number, refusal),
        };
        let Some(next) = found else {
            return Ok(());
        };
        number += 1;
        let reply = play(controller, next);
        write_line(text, number, reply)?;
    }
}

fn write_file<C: KeyboardController>(
    text: &mut String,
    controller: &mut C,
    file: &[u8],
) -> Result<(), AllocError>
    ensures { OnOk result (string_bytes text.new ≡ string_bytes text.old ++ lines_of 0 (C.KeyboardController.state controller.old) (session_of file.now)) }
{
    match Reader::open(file) {
        Ok(reader) => write_records(text, controller, reader),
        Err(refusal) => write_refused(text, 0, refusal),
    }
}

// Ports 0 and 1 are wheel mice, 2 and 3 boards, all on cables; the keyboard is a board.
fn tower() -> Controller<Cable<Mouse>, Cable<Mouse>, Cable<Board>, Cable<Board>, Board>
    ensures { state_by (cable_model mouse_model) (cable_model mouse_model) (cable_model board_model) (cable_model board_model) board_model result ≡ power_on tower_devices }
{
    let port0 = Cable::new(Mouse::new(Variant::Wheel));
    let port1 = Cable::new(Mouse::new(Variant::Wheel));
    let port2 = Cable::new(Board::new());
    let port3 = Cable::new(Board::new());
    Controller::new(port0, port1, port2, port3, Board::new())
}

// The transcript of a session file, one line for each record.
#[tactic(auto, using(crate::proofs::Lines::runs))]
pub fn transcript(heap: Global, file: &[u8]) -> Result<String, AllocError>
    ensures value { IfOk result (λ t. string_bytes t ≡ transcript file.now) }
    ensures runs { Runs file.now }
{
    let mut text = String::new(heap);
    let mut controller = tower();
    write_file(&mut text, &mut controller, file)?;
    Ok(text)
}
