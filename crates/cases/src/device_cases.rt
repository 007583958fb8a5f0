// Boards, cables and events.
use crate::events::{movement, stroke};
use crate::silent::Silent;
use devices::board::Board;
use devices::cable::Cable;
use mouse::mouse::Mouse;
use ps2::device::Device;
use ps2::entry::Entry;
use ps2::event::Event;
use ps2::refusal::Refusal;
use std::mem::size_of;
use std::test::*;

const ACKNOWLEDGE: Entry = Entry::Byte(0xFA);

#[test]
fn ranges(rt: HostRuntime) -> Result<(), Fail> {
    assert!(rt; movement(-255, 255, -8, 31).is_in_range());
    assert!(rt; movement(255, -255, 7, 0).is_in_range());
    assert!(rt; !movement(256, 0, 0, 0).is_in_range());
    assert!(rt; !movement(0, -256, 0, 0).is_in_range());
    assert!(rt; !movement(0, 0, 8, 0).is_in_range());
    assert!(rt; !movement(0, 0, -9, 0).is_in_range());
    assert!(rt; !movement(0, 0, 0, 32).is_in_range());
    assert!(rt; !stroke(&[]).is_in_range());
    assert!(rt; stroke(&[0; 1]).is_in_range());
    assert!(rt; stroke(&[0; 16]).is_in_range());
    assert!(rt; !stroke(&[0; 17]).is_in_range());
    Ok(())
}

#[test]
fn shown_entries(rt: HostRuntime) -> Result<(), Fail> {
    assert_eq!(rt; Entry::Byte(0xFF).shown(), 0xFF);
    assert_eq!(rt; Entry::Parity.shown(), 0xFF);
    assert_eq!(rt; Entry::Timeout.shown(), 0xFE);
    Ok(())
}

#[test]
fn board_room(rt: HostRuntime) -> Result<(), Fail> {
    let mut full = Board::new();
    assert_eq!(rt; full.event(stroke(&[1; 16])), Ok(()));
    assert_eq!(rt; full.event(stroke(&[1])), Err(Refusal::NoRoom));
    let mut board = Board::new();
    assert_eq!(rt; board.event(stroke(&[1; 17])), Err(Refusal::NoRoom));
    assert_eq!(rt; board.event(stroke(&[1; 15])), Ok(()));
    assert_eq!(rt; board.event(stroke(&[2, 3])), Err(Refusal::NoRoom));
    assert_eq!(rt; board.event(stroke(&[2])), Ok(()));
    assert_eq!(rt; board.event(stroke(&[3])), Err(Refusal::NoRoom));
    // the place of a given byte is free again
    assert_eq!(rt; board.give(), Some(Entry::Byte(1)));
    assert_eq!(rt; board.event(stroke(&[3])), Ok(()));
    assert_eq!(rt; board.event(movement(1, 1, 1, 1)), Ok(()));
    board.power_up();
    assert!(rt; !board.waits());
    assert_eq!(rt; board.give(), None);
    Ok(())
}

#[test]
fn board_acknowledges(rt: HostRuntime) -> Result<(), Fail> {
    let mut board = Board::new();
    assert_eq!(rt; board.event(stroke(&[0x81, 0x40])), Ok(()));
    assert_eq!(rt; board.give(), Some(Entry::Byte(0x81)));
    // ahead of the rest of a stroke that is partly given
    assert!(rt; board.receive(0xF4));
    assert!(rt; !board.receive(0xF4));
    assert_eq!(rt; board.give(), Some(ACKNOWLEDGE));
    assert_eq!(rt; board.give(), Some(Entry::Byte(0x40)));
    assert!(rt; board.receive(0xF4));
    assert!(rt; board.waits());
    Ok(())
}

#[test]
fn cables(rt: HostRuntime) -> Result<(), Fail> {
    let mut cable = Cable::new(Board::new());
    assert_eq!(rt; cable.event(stroke(&[1, 2])), Ok(()));
    assert_eq!(rt; cable.event(Event::Plug), Ok(()));
    assert_eq!(rt; cable.give(), Some(Entry::Byte(1)));
    // pulled while something waits: nothing is given, and a stroke too long for a board is accepted
    assert_eq!(rt; cable.event(Event::Pull), Ok(()));
    assert!(rt; !cable.waits());
    assert_eq!(rt; cable.give(), None);
    assert!(rt; !cable.receive(0xF4));
    assert_eq!(rt; cable.event(stroke(&[1; 17])), Ok(()));
    // the board comes back as at power-up
    assert_eq!(rt; cable.event(Event::Plug), Ok(()));
    assert_eq!(rt; cable.give(), None);
    assert!(rt; cable.receive(0xF4));
    assert_eq!(rt; cable.give(), Some(ACKNOWLEDGE));
    Ok(())
}

#[test]
fn cable_over_cable(rt: HostRuntime) -> Result<(), Fail> {
    let mut outer = Cable::new(Cable::new(Board::new()));
    assert_eq!(rt; outer.event(stroke(&[1])), Ok(()));
    // a pull stays at the outer cable, so its plug finds the inner one plugged and powers it up
    assert_eq!(rt; outer.event(Event::Pull), Ok(()));
    assert_eq!(rt; outer.event(Event::Plug), Ok(()));
    assert!(rt; !outer.waits());
    assert_eq!(rt; outer.event(stroke(&[2])), Ok(()));
    assert_eq!(rt; outer.give(), Some(Entry::Byte(2)));
    Ok(())
}

#[test]
fn silence_is_lawful(rt: HostRuntime) -> Result<(), Fail> {
    let mut silent = Cable::new(Silent);
    silent.power_up();
    assert!(rt; !silent.receive(0xF4));
    assert_eq!(rt; silent.event(stroke(&[1; 17])), Ok(()));
    assert_eq!(rt; silent.give(), None);
    Ok(())
}

#[test]
fn memory(rt: HostRuntime) -> Result<(), Fail> {
    assert!(rt; size_of::<Board>() <= 32);
    assert!(rt; size_of::<Cable<Board>>() <= 40);
    assert!(rt; size_of::<Mouse>() <= 64);
    Ok(())
}
