// Talks with a mouse, by their text.
use std::process::Abort;
use std::test::*;
use talk::exchange::exchange;

const BAD_BYTE: &str = "plain -> aa 00\nline 2: a byte is two hexadecimal digits\n";

const BAD_MOVEMENT: &str = "plain -> aa 00\nline 2: a movement has four numbers\n";

const OUT_OF_RANGE: &str = "plain -> aa 00\nline 2: number out of range\n";

fn says(rt: &(impl Abort + AllocGlobal), input: &str, text: &str) -> Result<(), Fail> {
    let said = exchange(rt.alloc(), input)?;
    assert_eq!(rt; said.as_str(), text);
    Ok(())
}

#[test]
fn ends_of_a_talk(rt: HostRuntime) -> Result<(), Fail> {
    says(&rt, "", "")?;
    says(&rt, "\n", "\n")?;
    says(&rt, "plain", "plain -> aa 00\n")?;
    says(&rt, "plain\n", "plain -> aa 00\n")?;
    says(&rt, "plain\n\n", "plain -> aa 00\n\n")?;
    says(&rt, "# naïve", "# naïve\n")
}

#[test]
fn notes(rt: HostRuntime) -> Result<(), Fail> {
    says(&rt, "#\n\n# host f2\n", "#\n\n# host f2\n")?;
    // a note is no step of the mouse, and counts as a line
    says(
        &rt,
        "plain\n# x\nhost f2\n\n#\nhosts",
        "plain -> aa 00\n# x\nhost f2 -> fa 00\n\n#\nline 6: unknown word\n",
    )?;
    says(&rt, " #", "line 1: unknown word\n")
}

#[test]
fn unknown_words(rt: HostRuntime) -> Result<(), Fail> {
    for line in [
        "stop", "Plain", "plain ", " plain", "plain x", "wheels", "host\tf2", "move\r",
    ] {
        says(&rt, line, "line 1: unknown word\n")?;
    }
    Ok(())
}

#[test]
fn no_mouse_yet(rt: HostRuntime) -> Result<(), Fail> {
    says(&rt, "host f2", "line 1: no mouse yet\n")?;
    says(
        &rt,
        "# first\nmove 0 0 0 0\nplain",
        "# first\nline 2: no mouse yet\n",
    )?;
    // what the line says is judged first
    says(&rt, "host", "line 1: a byte is two hexadecimal digits\n")?;
    says(&rt, "move 0 0 8 0", "line 1: number out of range\n")
}

#[test]
fn bytes(rt: HostRuntime) -> Result<(), Fail> {
    says(&rt, "plain\nhost F2", "plain -> aa 00\nhost f2 -> fa 00\n")?;
    says(&rt, "plain\nhost eE", "plain -> aa 00\nhost ee -> fa\n")?;
    for line in [
        "host", "host ", "host f", "host f2 ", "host  f2", "host ff2", "host g0", "host 0G",
    ] {
        bad_second(&rt, line, BAD_BYTE)?;
    }
    for line in [
        "host /0",
        "host 0:",
        "host @0",
        "host 0`",
        "host f2 f2",
        "host é",
    ] {
        bad_second(&rt, line, BAD_BYTE)?;
    }
    Ok(())
}

// A line behind a new mouse.
fn bad_second(rt: &(impl Abort + AllocGlobal), line: &str, text: &str) -> Result<(), Fail> {
    let input = format!(in rt.alloc(); "plain\n{line}\nplain\n")?;
    says(rt, input.as_str(), text)
}

#[test]
fn movements_that_are_none(rt: HostRuntime) -> Result<(), Fail> {
    for line in [
        "move",
        "move ",
        "move 1",
        "move 1 2 3",
        "move 1 2 3 ",
        "move 1 2 3 4 ",
    ] {
        bad_second(&rt, line, BAD_MOVEMENT)?;
    }
    for line in [
        "move 1 2 3 4 5",
        "move  1 2 3 4",
        "move 1  2 3",
        "move 1 2 3 -4",
        "move 1 2 - 4",
    ] {
        bad_second(&rt, line, BAD_MOVEMENT)?;
    }
    for line in [
        "move +1 2 3 4",
        "move --1 2 3 4",
        "move 1- 2 3 4",
        "move a 2 3 4",
        "move 1 2 3 -0",
    ] {
        bad_second(&rt, line, BAD_MOVEMENT)?;
    }
    Ok(())
}

#[test]
fn movements_out_of_range(rt: HostRuntime) -> Result<(), Fail> {
    for line in [
        "move 256 0 0 0",
        "move -256 0 0 0",
        "move 0 256 0 0",
        "move 0 -256 0 0",
    ] {
        bad_second(&rt, line, OUT_OF_RANGE)?;
    }
    for line in [
        "move 0 0 8 0",
        "move 0 0 -9 0",
        "move 0 0 0 32",
        "move 0 0 0 256",
        "move 0 0 999 0",
    ] {
        bad_second(&rt, line, OUT_OF_RANGE)?;
    }
    // however many digits a number has
    for line in [
        "move 65537 0 0 0",
        "move 0 0 0 4294967296",
        "move 0 0 -18446744073709551617 0",
    ] {
        bad_second(&rt, line, OUT_OF_RANGE)?;
    }
    Ok(())
}

// Numbers are shown as they are usually written.
#[test]
fn ends_of_ranges(rt: HostRuntime) -> Result<(), Fail> {
    says(
        &rt,
        "plain\nhost f4\nmove 255 -255 7 31\nmove -255 255 -8 0\nmove -0 0000 007 00",
        "plain -> aa 00\nhost f4 -> fa\nmove 255 -255 7 31 -> 2f ff 01\nmove -255 255 -8 0 -> 18 01 ff\nmove 0 0 7 0 ->\n",
    )
}

// A new mouse takes the place of the one before, and forgets all that was said to it.
#[test]
fn a_new_mouse(rt: HostRuntime) -> Result<(), Fail> {
    says(
        &rt,
        "plain\nhost f4\nwheel\nmove 1 0 0 0\nhost f4\nmove 1 0 0 0",
        "plain -> aa 00\nhost f4 -> fa\nwheel -> aa 00\nmove 1 0 0 0 ->\nhost f4 -> fa\nmove 1 0 0 0 -> 08 01 00\n",
    )
}
