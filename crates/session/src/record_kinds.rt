// The records of a session file. Fields are as the file has them: whether a line, a wheel or a
// cable action is in range is judged where the event is asked for.
use ps2::event::Movement;

#[derive(Clone, Copy)]
pub enum Record<'a> {
    CommandWrite(u8),
    DataWrite(u8),
    StatusRead,
    DataRead,
    Turn,
    Movement { line: u8, movement: Movement },
    Stroke { line: u8, bytes: &'a [u8] },
    Cable { line: u8, action: u8 },
}
