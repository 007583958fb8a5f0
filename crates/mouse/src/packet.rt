// Up to four bytes that go to the host together. Giving ends at the empty packet, so that is a case here
// and no `None`; and with five sizes no length stands beside the bytes. (The kit's `ArrayVec` is not `Copy`, as an answer is.)
ghost use Rattle.std.specs.Prelude.{◌≡◌, not};
ghost use Rattle.ps2.specs.Kinds.{nonempty, first};
ghost use Rattle.mouse.specs.Packets.{bytes_of, behind, or_else};

#[derive(Clone, Copy)]
pub(crate) enum Packet {
    Empty,
    One(u8),
    Two(u8, u8),
    Three(u8, u8, u8),
    Four(u8, u8, u8, u8),
}

impl Packet {
    pub(crate) fn is_empty(self) -> bool
        ensures { result ≡ not (nonempty (bytes_of self)) }
    {
        matches!(self, Packet::Empty)
    }

    // This packet, or the other where it is empty.
    pub(crate) fn or(self, other: Packet) -> Packet
        ensures { result ≡ or_else self other }
    {
        match self {
            Packet::Empty => other,
            _ => self,
        }
    }

    pub(crate) fn pop(&mut self) -> Option<u8>
        ensures value { result ≡ first (bytes_of self.old) }
        ensures after { self.new ≡ behind self.old }
    {
        match *self {
            Packet::Empty => None,
            Packet::One(a) => {
                *self = Packet::Empty;
                Some(a)
            }
            Packet::Two(a, b) => {
                *self = Packet::One(b);
                Some(a)
            }
            Packet::Three(a, b, c) => {
                *self = Packet::Two(b, c);
                Some(a)
            }
            Packet::Four(a, b, c, d) => {
                *self = Packet::Three(b, c, d);
                Some(a)
            }
        }
    }
}
