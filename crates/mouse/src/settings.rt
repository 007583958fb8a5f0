// What a host can set.
ghost use Rattle.std.specs.Prelude.{◌≡◌};
ghost use Rattle.mouse.specs.Settings.{id_of, defaults, knocked, listed_rate};

// Whether the mouse can have a wheel at all.
#[derive(Clone, Copy)]
pub enum Variant {
    Plain,
    Wheel,
}

#[derive(Clone, Copy, PartialEq, Eq)]
pub(crate) enum Mode {
    Stream,
    Remote,
}

// What the mouse says it is: this decides the form of its packets.
#[derive(Clone, Copy)]
pub(crate) enum Identity {
    Standard = 0,
    Wheel = 3,
    FiveButtons = 4,
}

#[derive(Clone, Copy)]
pub(crate) struct Settings {
    pub(crate) mode: Mode,
    pub(crate) reporting: bool,
    pub(crate) doubled: bool,
    // the code that a host sets and reads, 0 to 3; and the rate, one of seven: numbers that stand for themselves
    pub(crate) resolution: u8,
    pub(crate) rate: u8,
}

// The identity, and the last three rates accepted, newest first: three certain ones change it.
#[derive(Clone, Copy)]
pub(crate) struct Knock {
    pub(crate) id: Identity,
    pub(crate) rates: (u8, u8, u8),
}

impl Identity {
    pub(crate) fn number(self) -> u8
        ensures { result ≡ id_of self }
    {
        self as u8
    }
}

impl Settings {
    pub(crate) fn defaults() -> Settings
        ensures { result ≡ defaults }
    {
        Settings {
            mode: Mode::Stream,
            reporting: false,
            doubled: false,
            resolution: 2,
            rate: 100,
        }
    }
}

pub(crate) fn is_rate(rate: u8) -> bool
    ensures { result ≡ listed_rate rate }
{
    matches!(rate, 10 | 20 | 40 | 60 | 80 | 100 | 200)
}

impl Knock {
    // One accepted rate more.
    pub(crate) fn after(self, variant: Variant, rate: u8) -> Knock
        ensures { result ≡ knocked variant self rate }
    {
        let rates = (rate, self.rates.0, self.rates.1);
        let id = match (variant, rates) {
            (Variant::Wheel, (80, 100, 200)) => Identity::Wheel,
            (Variant::Wheel, (80, 200, 200)) => Identity::FiveButtons,
            _ => self.id,
        };
        Knock { id, rates }
    }
}
