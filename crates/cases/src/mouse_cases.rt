// The mouse, by the published exchanges and its boundaries.
use crate::events::movement;
use mouse::mouse::Mouse;
use mouse::settings::Variant;
use ps2::device::Device;
use ps2::entry::Entry;
use std::process::Abort;
use std::test::*;

// A host byte and the answer to it.
type Exchange = (u8, &'static [u8]);

const KNOCK: [Exchange; 9] = [
    (0xFF, b"\xfa\xaa\0"),
    (0xFF, b"\xfa\xaa\0"),
    (0xFF, b"\xfa\xaa\0"),
    (0xF3, b"\xfa"),
    (200, b"\xfa"),
    (0xF3, b"\xfa"),
    (100, b"\xfa"),
    (0xF3, b"\xfa"),
    (80, b"\xfa"),
];

const SECOND_KNOCK: [Exchange; 6] = [
    (0xF3, b"\xfa"),
    (200, b"\xfa"),
    (0xF3, b"\xfa"),
    (200, b"\xfa"),
    (0xF3, b"\xfa"),
    (80, b"\xfa"),
];

const SETTINGS: [Exchange; 6] = [
    (0xE8, b"\xfa"),
    (3, b"\xfa"),
    (0xE6, b"\xfa"),
    (0xF3, b"\xfa"),
    (40, b"\xfa"),
    (0xF4, b"\xfa"),
];

// All that waits, and no more.
fn gives(rt: &impl Abort, mouse: &mut Mouse, answer: &[u8]) -> Result<(), Fail> {
    for byte in answer {
        assert_eq!(rt; mouse.give(), Some(Entry::Byte(*byte)));
    }
    assert_eq!(rt; mouse.give(), None);
    Ok(())
}

fn hears(rt: &impl Abort, mouse: &mut Mouse, exchanges: &[Exchange]) -> Result<(), Fail> {
    for (byte, answer) in exchanges {
        assert!(rt; mouse.receive(*byte));
        gives(rt, mouse, *answer)?;
    }
    Ok(())
}

fn moves(mouse: &mut Mouse, dx: i16, dy: i16, wheel: i8, buttons: u8) {
    let _ = mouse.event(movement(dx, dy, wheel, buttons));
}

#[test]
fn plain_start_up(rt: HostRuntime) -> Result<(), Fail> {
    let mut mouse = Mouse::new(Variant::Plain);
    gives(&rt, &mut mouse, b"\xaa\0")?;
    hears(&rt, &mut mouse, &KNOCK)?;
    hears(
        &rt,
        &mut mouse,
        &[
            (0xF2, b"\xfa\0"),
            (0xF3, b"\xfa"),
            (10, b"\xfa"),
            (0xF2, b"\xfa\0"),
        ],
    )?;
    hears(&rt, &mut mouse, &SETTINGS)?;
    moves(&mut mouse, 0, 0, 0, 1);
    gives(&rt, &mut mouse, b"\x09\0\0")?;
    moves(&mut mouse, 0, 0, 0, 0);
    gives(&rt, &mut mouse, b"\x08\0\0")
}

#[test]
fn wheel_start_up(rt: HostRuntime) -> Result<(), Fail> {
    let mut mouse = Mouse::new(Variant::Wheel);
    gives(&rt, &mut mouse, b"\xaa\0")?;
    hears(&rt, &mut mouse, &KNOCK)?;
    hears(&rt, &mut mouse, &[(0xF2, b"\xfa\x03")])?;
    hears(&rt, &mut mouse, &SETTINGS)?;
    moves(&mut mouse, 0, 0, 0, 1);
    gives(&rt, &mut mouse, b"\x09\0\0\0")?;
    moves(&mut mouse, 0, 0, -1, 0);
    gives(&rt, &mut mouse, b"\x08\0\0\xff")?;
    // the fourth and fifth button show under ID 4 alone
    moves(&mut mouse, 0, 0, 0, 0x18);
    gives(&rt, &mut mouse, b"")?;
    hears(&rt, &mut mouse, &SECOND_KNOCK)?;
    hears(&rt, &mut mouse, &[(0xF2, b"\xfa\x04")])?;
    moves(&mut mouse, 0, 0, -1, 0x18);
    gives(&rt, &mut mouse, b"\x08\0\0\x3f")
}

// What a movement with reporting enabled sends; each button is released again.
fn sends(rt: &impl Abort, dx: i16, dy: i16, buttons: u8, packet: &[u8]) -> Result<(), Fail> {
    let mut mouse = Mouse::new(Variant::Plain);
    hears(rt, &mut mouse, &[(0xF4, b"\xfa")])?;
    moves(&mut mouse, dx, dy, 0, buttons);
    gives(rt, &mut mouse, packet)
}

#[test]
fn single_actions(rt: HostRuntime) -> Result<(), Fail> {
    sends(&rt, 0, 1, 0, b"\x08\x00\x01")?;
    sends(&rt, 0, -1, 0, b"\x28\x00\xff")?;
    sends(&rt, 1, 0, 0, b"\x08\x01\x00")?;
    sends(&rt, -1, 0, 0, b"\x18\xff\x00")?;
    sends(&rt, 0, 0, 1, b"\x09\x00\x00")?;
    sends(&rt, 0, 0, 4, b"\x0c\x00\x00")?;
    sends(&rt, 0, 0, 2, b"\x0a\x00\x00")?;
    sends(&rt, 0, 0, 0, b"")
}

// A movement under 2:1 scaling.
fn scales(rt: &impl Abort, dx: i16, packet: &[u8]) -> Result<(), Fail> {
    let mut mouse = Mouse::new(Variant::Plain);
    hears(rt, &mut mouse, &[(0xE7, b"\xfa"), (0xF4, b"\xfa")])?;
    moves(&mut mouse, dx, 0, 0, 0);
    gives(rt, &mut mouse, packet)
}

#[test]
fn scaling(rt: HostRuntime) -> Result<(), Fail> {
    scales(&rt, 1, b"\x08\x01\0")?;
    scales(&rt, 2, b"\x08\x01\0")?;
    scales(&rt, 3, b"\x08\x03\0")?;
    scales(&rt, 4, b"\x08\x06\0")?;
    scales(&rt, -5, b"\x18\xf7\0")?;
    scales(&rt, 127, b"\x08\xfe\0")?;
    scales(&rt, 128, b"\x48\xff\0")?;
    scales(&rt, -128, b"\x58\x01\0")
}

#[test]
fn axes(rt: HostRuntime) -> Result<(), Fail> {
    let mut mouse = Mouse::new(Variant::Plain);
    hears(&rt, &mut mouse, &[(0xF0, b"\xfa")])?;
    moves(&mut mouse, 255, -255, 0, 0);
    moves(&mut mouse, 1, 0, 0, 0);
    // frozen until it is reset
    moves(&mut mouse, -55, 0, 0, 0);
    hears(
        &rt,
        &mut mouse,
        &[(0xEB, b"\xfa\x68\xff\x01"), (0xEB, b"\xfa\x08\0\0")],
    )?;
    moves(&mut mouse, 200, 0, 0, 0);
    moves(&mut mouse, 100, 0, 0, 0);
    hears(
        &rt,
        &mut mouse,
        &[(0xFE, b"\x08\0\0"), (0xEB, b"\xfa\x48\xc8\0")],
    )?;
    moves(&mut mouse, 9, 9, 0, 0);
    // an unlisted command resets the counters
    hears(&rt, &mut mouse, &[(0x12, b"\xfa"), (0xEB, b"\xfa\x08\0\0")])?;
    // past the other ends
    moves(&mut mouse, -255, 255, 0, 0);
    moves(&mut mouse, -1, 1, 0, 0);
    hears(&rt, &mut mouse, &[(0xEB, b"\xfa\xd8\x01\xff")])
}

#[test]
fn wheel_ends(rt: HostRuntime) -> Result<(), Fail> {
    let mut mouse = Mouse::new(Variant::Wheel);
    hears(&rt, &mut mouse, &KNOCK)?;
    moves(&mut mouse, 0, 0, 5, 0);
    moves(&mut mouse, 0, 0, 5, 0);
    hears(&rt, &mut mouse, &[(0xEB, b"\xfa\x08\0\0\x07")])?;
    moves(&mut mouse, 0, 0, -8, 0);
    moves(&mut mouse, 0, 0, -1, 0);
    hears(&rt, &mut mouse, &[(0xEB, b"\xfa\x08\0\0\xf8")])
}

// Every listed command is acknowledged, and so is every other byte but a Resend.
#[test]
fn every_command(rt: HostRuntime) -> Result<(), Fail> {
    for byte in 0xE6..=0xFF {
        let mut mouse = Mouse::new(Variant::Plain);
        assert!(rt; mouse.receive(byte));
        let first = if byte == 0xFE { 0xAA } else { 0xFA };
        assert_eq!(rt; mouse.give(), Some(Entry::Byte(first)));
    }
    Ok(())
}

#[test]
fn broken_knocks(rt: HostRuntime) -> Result<(), Fail> {
    let mut mouse = Mouse::new(Variant::Wheel);
    let first: [Exchange; 4] = [
        (0xF3, b"\xfa"),
        (200, b"\xfa"),
        (0xF3, b"\xfa"),
        (60, b"\xfa"),
    ];
    hears(&rt, &mut mouse, &first)?;
    let rest: [Exchange; 4] = [
        (0xF3, b"\xfa"),
        (100, b"\xfa"),
        (0xF3, b"\xfa"),
        (80, b"\xfa"),
    ];
    hears(&rt, &mut mouse, &rest)?;
    hears(&rt, &mut mouse, &[(0xF2, b"\xfa\0")])?;
    // an unlisted rate does not count, and other commands between do not matter
    let again: [Exchange; 5] = [
        (0xF3, b"\xfa"),
        (200, b"\xfa"),
        (0xE6, b"\xfa"),
        (0xF3, b"\xfa"),
        (201, b"\xfa"),
    ];
    hears(&rt, &mut mouse, &again)?;
    hears(&rt, &mut mouse, &rest)?;
    hears(&rt, &mut mouse, &[(0xF2, b"\xfa\x03")])?;
    // the second knock, broken in the middle
    let broken: [Exchange; 8] = [
        (0xF3, b"\xfa"),
        (200, b"\xfa"),
        (0xF3, b"\xfa"),
        (60, b"\xfa"),
        (0xF3, b"\xfa"),
        (200, b"\xfa"),
        (0xF3, b"\xfa"),
        (80, b"\xfa"),
    ];
    let mut other = Mouse::new(Variant::Wheel);
    hears(&rt, &mut other, &broken)?;
    hears(&rt, &mut other, &[(0xF2, b"\xfa\0")])
}

#[test]
fn resends(rt: HostRuntime) -> Result<(), Fail> {
    let mut mouse = Mouse::new(Variant::Plain);
    let asked: [Exchange; 6] = [
        (0xFE, b"\xaa\0"),
        (0xF2, b"\xfa\0"),
        (0xFE, b"\0"),
        (0xE9, b"\xfa\0\x02\x64"),
        (0xFE, b"\0\x02\x64"),
        (0xFE, b"\0\x02\x64"),
    ];
    hears(&rt, &mut mouse, &asked)?;
    // in Wrap mode a Resend is echoed; ECh leaves it
    let wrapped: [Exchange; 5] = [
        (0xEE, b"\xfa"),
        (0xFE, b"\xfe"),
        (0xF4, b"\xf4"),
        (0xEC, b"\xfa"),
        (0xFE, b"\xfa"),
    ];
    hears(&rt, &mut mouse, &wrapped)?;
    moves(&mut mouse, 0, 0, 0, 1);
    let status: [Exchange; 5] = [
        (0xE9, b"\xfa\x04\x02\x64"),
        (0xF0, b"\xfa"),
        (0xF4, b"\xfa"),
        (0xE7, b"\xfa"),
        (0xE9, b"\xfa\x74\x02\x64"),
    ];
    hears(&rt, &mut mouse, &status)
}
