// Readings and lanes.
use lanes::lane::{Untagged, count_untagged, fill_lane, lane_size};
use lanes::reading::port_of;
use ps2::refusal::Refusal;
use report::demux::demux;
use report::failure::Failure;
use std::test::*;

// A chord on four ports, a timeout of port 2, a keyboard byte, an empty status and a Legacy byte.
const READINGS: [u16; 8] = [
    0x2181, 0x618a, 0xa193, 0xe19c, 0xa5fe, 0x011c, 0x0000, 0x25fa,
];

#[test]
fn ports(rt: HostRuntime) -> Result<(), Fail> {
    let expected = [Some(0), Some(1), Some(2), Some(3), None, None, None, None];
    for (reading, port) in READINGS.iter().zip(expected.iter()) {
        assert_eq!(rt; port_of(*reading), *port);
    }
    // AUX and a port number without OBF: nothing was read
    assert_eq!(rt; port_of(0xe09c), None);
    Ok(())
}

#[test]
fn sizes(rt: HostRuntime) -> Result<(), Fail> {
    assert_eq!(rt; lane_size(&READINGS, 3), Ok(1));
    assert_eq!(rt; lane_size(&READINGS, 4), Err(Refusal::NoSuchLine));
    assert_eq!(rt; lane_size(&[], 0), Ok(0));
    let untagged = Untagged {
        total: 4,
        errors: 2,
    };
    assert_eq!(rt; count_untagged(&READINGS), Ok(untagged));
    Ok(())
}

#[test]
fn most_readings(rt: HostRuntime) -> Result<(), Fail> {
    let many = vec![in rt.alloc(); 0x2181u16; 32_769]?;
    let all = many.as_slice();
    assert!(rt; all.len() == 32_769);
    let most = &all[0..32_768];
    assert_eq!(rt; lane_size(most, 0), Ok(32_768));
    assert_eq!(rt; lane_size(all, 0), Err(Refusal::TooManyReadings));
    assert_eq!(rt; lane_size(all, 4), Err(Refusal::NoSuchLine));
    assert_eq!(rt; fill_lane(all, 0, &mut []), Err(Refusal::TooManyReadings));
    assert_eq!(rt; count_untagged(all), Err(Refusal::TooManyReadings));
    Ok(())
}

#[test]
fn buffers(rt: HostRuntime) -> Result<(), Fail> {
    let readings = [0x2181, 0x618a, 0x2140];
    let mut longer = [7, 7, 7];
    assert_eq!(rt; fill_lane(&readings, 0, &mut longer), Ok(2));
    assert_eq!(rt; longer, [0x81, 0x40, 7]);
    let mut exact = [7, 7];
    assert_eq!(rt; fill_lane(&readings, 0, &mut exact), Ok(2));
    assert_eq!(rt; exact, [0x81, 0x40]);
    let mut short = [7];
    assert_eq!(rt;
        fill_lane(&readings, 0, &mut short),
        Err(Refusal::BufferTooShort)
    );
    assert_eq!(rt;
        fill_lane(&readings, 4, &mut short),
        Err(Refusal::NoSuchLine)
    );
    assert_eq!(rt; short, [7]);
    Ok(())
}

#[test]
fn demuxed(rt: HostRuntime) -> Result<(), Fail> {
    let pairs = vec![in rt.alloc(); [0x21u8, 0x55u8]; 32_769]?;
    let all = pairs.as_slice();
    assert!(rt; all.len() == 32_769);
    assert!(rt; demux(rt.alloc(), &all[0..32_768]).is_ok());
    match demux(rt.alloc(), all) {
        Err(Failure::Refused(refusal)) => {
            assert_eq!(rt; refusal, Refusal::TooManyReadings);
            Ok(())
        },
        _ => Err(Fail::new("not refused")),
    }
}
