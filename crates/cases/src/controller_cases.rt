// The controller's refusals, its table of commands, and bytes that stay.
use crate::events::stroke;
use crate::silent::Silent;
use controller::Controller;
use devices::board::Board;
use kbc::calls::KeyboardController;
use parts::lines::Line;
use parts::output::Carried;
use ps2::device::Device;
use ps2::refusal::Refusal;
use std::mem::size_of;
use std::process::Abort;
use std::test::*;

fn boards() -> Controller<Board, Board, Board, Board, Board> {
    Controller::new(
        Board::new(),
        Board::new(),
        Board::new(),
        Board::new(),
        Board::new(),
    )
}

fn silents() -> Controller<Silent, Silent, Silent, Silent, Silent> {
    Controller::new(Silent, Silent, Silent, Silent, Silent)
}

// Writes a command and answers what became of it. (Two lines, and two for a data byte: no closure for the write.)
fn command<C: KeyboardController>(
    rt: &impl Abort,
    controller: &mut C,
    byte: u8,
) -> Result<Carried, Fail> {
    assert_eq!(rt; controller.write_command(byte), Ok(()));
    Ok(controller.turn().0)
}

// Writes a data byte and answers what became of it.
fn data<C: KeyboardController>(
    rt: &impl Abort,
    controller: &mut C,
    byte: u8,
) -> Result<Carried, Fail> {
    assert_eq!(rt; controller.write_data(byte), Ok(()));
    Ok(controller.turn().0)
}

// A command with its argument, both carried out.
fn tell<C: KeyboardController>(
    rt: &impl Abort,
    controller: &mut C,
    byte: u8,
    argument: u8,
) -> Result<(), Fail> {
    assert_eq!(rt; command(rt, controller, byte)?, Carried::CarriedOut);
    assert_eq!(rt; data(rt, controller, argument)?, Carried::CarriedOut);
    Ok(())
}

// Enters Multiplexed mode, with the bytes read that it gives.
fn activate<C: KeyboardController>(rt: &impl Abort, controller: &mut C) -> Result<(), Fail> {
    tell(rt, controller, 0xD3, 0xF0)?;
    assert_eq!(rt; controller.read_data(), Ok(0xF0));
    tell(rt, controller, 0xD3, 0x56)?;
    assert_eq!(rt; controller.read_data(), Ok(0x56));
    assert_eq!(rt; command(rt, controller, 0xD3)?, Carried::CarriedOut);
    assert_eq!(rt; data(rt, controller, 0xA4)?, Carried::NowMultiplexed);
    let (_, line) = controller.turn();
    assert_eq!(rt; line.is_some(), true);
    assert_eq!(rt; controller.read_data(), Ok(0x11));
    Ok(())
}

// Fills the output buffer with the command byte.
fn fill_output<C: KeyboardController>(rt: &impl Abort, controller: &mut C) -> Result<(), Fail> {
    assert_eq!(rt; command(rt, controller, 0x20)?, Carried::CarriedOut);
    assert_eq!(rt; controller.read_status(), 0x01);
    Ok(())
}

#[test]
fn new_controller(rt: HostRuntime) -> Result<(), Fail> {
    let mut new = boards();
    assert_eq!(rt; new.read_status(), 0x00);
    assert_eq!(rt; new.interrupts() == (false, false), true);
    assert_eq!(rt; new.read_data(), Err(Refusal::OutputEmpty));
    let (carried, line) = new.turn();
    assert_eq!(rt; carried, Carried::NoByte);
    assert!(rt; line.is_none());
    Ok(())
}

#[test]
fn smaller_refusals_first(rt: HostRuntime) -> Result<(), Fail> {
    let mut controller = boards();
    assert_eq!(rt; controller.write_data(0x00), Ok(()));
    assert_eq!(rt; controller.write_data(0x00), Err(Refusal::InputFull));
    assert_eq!(rt; controller.write_command(0x20), Err(Refusal::InputFull));
    assert_eq!(rt;
        controller.write_command(0x00),
        Err(Refusal::UnknownCommand)
    );
    assert_eq!(rt; controller.write_command(0x90), Err(Refusal::InputFull));
    let (carried, _) = controller.turn();
    assert_eq!(rt; carried, Carried::CarriedOut);
    assert_eq!(rt;
        controller.write_command(0x90),
        Err(Refusal::PrefixInLegacy)
    );
    assert_eq!(rt;
        controller.event(5, stroke(&[0; 17])),
        Err(Refusal::NoSuchLine)
    );
    assert_eq!(rt;
        controller.event(5, stroke(&[0; 1])),
        Err(Refusal::NoSuchLine)
    );
    assert_eq!(rt;
        controller.event(4, stroke(&[])),
        Err(Refusal::FieldOutOfRange)
    );
    assert_eq!(rt; controller.event(2, stroke(&[0; 16])), Ok(()));
    assert_eq!(rt; controller.event(2, stroke(&[0; 1])), Err(Refusal::NoRoom));
    assert_eq!(rt;
        controller.event(2, stroke(&[0; 17])),
        Err(Refusal::FieldOutOfRange)
    );
    Ok(())
}

// Every command byte that Legacy mode accepts.
const LISTED: [u8; 12] = [
    0x20, 0x60, 0xA7, 0xA8, 0xA9, 0xAA, 0xAB, 0xAD, 0xAE, 0xD2, 0xD3, 0xD4,
];

#[test]
fn command_table(rt: HostRuntime) -> Result<(), Fail> {
    for byte in 0..=255 {
        let mut controller = boards();
        let answer = controller.write_command(byte);
        if (0x90..=0x93).contains(&byte) {
            assert_eq!(rt; answer, Err(Refusal::PrefixInLegacy));
        } else if LISTED.contains(&byte) {
            assert_eq!(rt; answer, Ok(()));
            assert_eq!(rt; controller.read_status(), 0x02);
        } else {
            assert_eq!(rt; answer, Err(Refusal::UnknownCommand));
            assert_eq!(rt; controller.read_status(), 0x00);
        }
    }
    Ok(())
}

#[test]
fn prefixes_when_multiplexed(rt: HostRuntime) -> Result<(), Fail> {
    let mut controller = boards();
    activate(&rt, &mut controller)?;
    for byte in 0x90..=0x93 {
        assert_eq!(rt; command(&rt, &mut controller, byte)?, Carried::CarriedOut);
    }
    Ok(())
}

#[test]
fn answers_stay(rt: HostRuntime) -> Result<(), Fail> {
    for byte in [0x20, 0xA9, 0xAA, 0xAB] {
        let mut controller = boards();
        fill_output(&rt, &mut controller)?;
        assert_eq!(rt; command(&rt, &mut controller, 0xAB)?, Carried::CarriedOut);
        // the answer before it is still held
        assert_eq!(rt; command(&rt, &mut controller, byte)?, Carried::Stays);
        assert_eq!(rt; controller.read_status(), 0x03);
        assert_eq!(rt; controller.read_data(), Ok(0x00));
        // it stays in the turn that moves the held answer on, and no longer
        let (carried, line) = controller.turn();
        assert_eq!(rt; carried, Carried::Stays);
        assert_eq!(rt; line, Some(Line::Controller));
        let (carried, _) = controller.turn();
        assert_eq!(rt; carried, Carried::CarriedOut);
    }
    Ok(())
}

#[test]
fn arguments_stay(rt: HostRuntime) -> Result<(), Fail> {
    // a loopback needs its line's held place, and so does a byte for the keyboard or port 0
    for (first, second) in [(0xD2, 0xD2), (0xD3, 0xD3), (0xD3, 0xD4)] {
        let mut controller = boards();
        fill_output(&rt, &mut controller)?;
        tell(&rt, &mut controller, first, 0x42)?;
        assert_eq!(rt; command(&rt, &mut controller, second)?, Carried::CarriedOut);
        assert_eq!(rt; data(&rt, &mut controller, 0x43)?, Carried::Stays);
        assert_eq!(rt; controller.read_status(), 0x03);
    }
    let mut controller = boards();
    fill_output(&rt, &mut controller)?;
    tell(&rt, &mut controller, 0xD2, 0x42)?;
    assert_eq!(rt; data(&rt, &mut controller, 0x43)?, Carried::Stays);
    Ok(())
}

#[test]
fn routed_bytes_stay(rt: HostRuntime) -> Result<(), Fail> {
    for prefix in 0x90..=0x93 {
        let mut controller = silents();
        activate(&rt, &mut controller)?;
        fill_output(&rt, &mut controller)?;
        // not taken: a timeout is held, and the next byte for the port stays
        tell(&rt, &mut controller, prefix, 0xF4)?;
        assert_eq!(rt; command(&rt, &mut controller, prefix)?, Carried::CarriedOut);
        assert_eq!(rt; data(&rt, &mut controller, 0xF4)?, Carried::Stays);
        assert_eq!(rt; controller.read_data(), Ok(0x00));
        let (carried, _) = controller.turn();
        assert_eq!(rt; carried, Carried::Stays);
        assert_eq!(rt; controller.read_status(), (prefix - 0x90) * 64 + 0x27);
        assert_eq!(rt; controller.read_data(), Ok(0xFE));
    }
    Ok(())
}

#[test]
fn interrupt_lines(rt: HostRuntime) -> Result<(), Fail> {
    let mut controller = boards();
    for (bits, keyboard, aux) in [
        (0, false, false),
        (1, true, false),
        (2, false, true),
        (3, true, true),
    ] {
        assert_eq!(rt; command(&rt, &mut controller, 0x60)?, Carried::CarriedOut);
        assert_eq!(rt; data(&rt, &mut controller, bits)?, Carried::CarriedOut);
        assert_eq!(rt; controller.event(4, stroke(&[1])), Ok(()));
        let (_, line) = controller.turn();
        assert_eq!(rt; line, Some(Line::Keyboard));
        assert_eq!(rt; controller.interrupts() == (keyboard, false), true);
        assert_eq!(rt; controller.read_data(), Ok(1));
        assert_eq!(rt; controller.event(0, stroke(&[2])), Ok(()));
        let (_, line) = controller.turn();
        assert!(rt; line.is_some());
        assert_eq!(rt; controller.interrupts() == (false, aux), true);
        assert_eq!(rt; controller.read_data(), Ok(2));
    }
    Ok(())
}

#[test]
fn memory(rt: HostRuntime) -> Result<(), Fail> {
    assert!(rt; size_of::<Controller<Silent, Silent, Silent, Silent, Silent>>() <= 48);
    Ok(())
}
