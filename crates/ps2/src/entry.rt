// What a device gives: a good byte, or a fault in its place.
ghost use Rattle.std.specs.Prelude.{◌≡◌};
ghost use Rattle.ps2.specs.Entries.{shows};

// The byte by which a device acknowledges a host byte.
pub const ACKNOWLEDGE: u8 = 0xFA;

#[derive(Clone, Copy, PartialEq, Eq, Debug)]
pub enum Entry {
    Byte(u8),
    Parity,
    Timeout,
}

impl Entry {
    // The byte that a host reads for it.
    pub fn shown(self) -> u8
        ensures { result ≡ shows self }
    {
        match self {
            Entry::Byte(byte) => byte,
            Entry::Parity => 0xFF,
            Entry::Timeout => 0xFE,
        }
    }
}
