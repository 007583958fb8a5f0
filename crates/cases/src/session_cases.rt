// Session files, by what is said of them.
use report::explain::explain;
use std::process::Abort;
use std::test::*;

const CUT: &str = "refused at 0 with 4: the file ends inside a record, or is empty\n";

const BAD: &str = "refused at 0 with 5: unknown kind, or wrong length for its kind\n";

const LONG: &str = "refused at 0 with 8: the file is above 65,536 bytes\n";

fn says(rt: &(impl Abort + AllocGlobal), file: &[u8], text: &str) -> Result<(), Fail> {
    let said = explain(rt.alloc(), file)?;
    assert_eq!(rt; said.as_str(), text);
    Ok(())
}

#[test]
fn short_files(rt: HostRuntime) -> Result<(), Fail> {
    says(&rt, &[], CUT)?;
    says(&rt, &[0], CUT)?;
    says(&rt, &[0, 0, 5], CUT)?;
    says(&rt, &[0, 0, 5, 0], "1 at 0: turn\nend at 4: 1 in all\n")?;
    let cut = "1 at 0: turn\nrefused at 4 with 4: the file ends inside a record, or is empty\n";
    says(&rt, &[0, 0, 5, 0, 0], cut)
}

#[test]
fn long_files(rt: HostRuntime) -> Result<(), Fail> {
    let mut file = Vec::new(rt.alloc());
    for _ in 0..16_384 {
        file.extend_from_slice(&[0, 0, 5, 0])?;
    }
    let said = explain(rt.alloc(), file.as_slice())?;
    assert!(rt;
        said.as_str()
            .ends_with("\n16384 at 65532: turn\nend at 65536: 16384 in all\n")
    );
    file.push(0)?;
    says(&rt, file.as_slice(), LONG)
}

#[test]
fn kinds(rt: HostRuntime) -> Result<(), Fail> {
    says(&rt, &[0, 0, 0, 0], BAD)?;
    says(
        &rt,
        &[2, 0, 8, 0, 4, 1],
        "1 at 0: cable, line 4: plug\nend at 6: 1 in all\n",
    )?;
    says(&rt, &[2, 0, 9, 0, 4, 1], BAD)?;
    says(&rt, &[0, 0, 5, 1], BAD)?;
    // 4 is smaller than 5: a cut payload is never judged further
    says(&rt, &[2, 0, 9, 0, 4], CUT)?;
    says(&rt, &[3, 0, 5, 0, 0], CUT)
}

#[test]
fn lengths(rt: HostRuntime) -> Result<(), Fail> {
    says(&rt, &[0, 0, 1, 0], BAD)?;
    says(&rt, &[1, 0, 5, 0, 0], BAD)?;
    // a wrong length before a line that no event can go to
    says(&rt, &[3, 0, 8, 0, 9, 0, 0], BAD)?;
    // a length of 256 is read low byte first
    says(&rt, &[0, 1, 5, 0, 0], CUT)
}

#[test]
fn strokes(rt: HostRuntime) -> Result<(), Fail> {
    says(&rt, &[0, 0, 7, 0], BAD)?;
    says(&rt, &[1, 0, 7, 0, 2], BAD)?;
    says(
        &rt,
        &[2, 0, 7, 0, 2, 0x81],
        "1 at 0: stroke, line 2: 81\nend at 6: 1 in all\n",
    )?;
    let most = b"\x11\0\x07\0\x02\x00\x01\x02\x03\x04\x05\x06\x07\x08\x09\x0a\x0b\x0c\x0d\x0e\x0f";
    let text =
        "1 at 0: stroke, line 2: 00 01 02 03 04 05 06 07 08 09 0a 0b 0c 0d 0e 0f\nend at 21: 1 in all\n";
    says(&rt, most, text)?;
    let more =
        b"\x12\0\x07\0\x02\x00\x01\x02\x03\x04\x05\x06\x07\x08\x09\x0a\x0b\x0c\x0d\x0e\x0f\x10";
    says(&rt, more, BAD)
}

#[test]
fn movements(rt: HostRuntime) -> Result<(), Fail> {
    let file = [7, 0, 6, 0, 9, 255, 0, 0x80, 0xff, 0x7f, 9];
    let text =
        "1 at 0: movement, line 9: buttons 255, dx -32768, dy 32767, wheel 9\nend at 11: 1 in all\n";
    says(&rt, &file, text)
}
