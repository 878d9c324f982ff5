ghost use Rattle.catalogue.specs.Numbers.{published};
ghost use Rattle.std.specs.Prelude.{◌≡◌};

// What a name in a template may stand for. Three of the five kinds of reference that a record has: an
// enum of its own, since a catalogue stands on no record.
#[derive(Clone, Copy, PartialEq, Eq, Debug)]
pub enum Kind {
    Filter,
    Test,
    Function,
}

// Why a registration was not taken.
#[derive(Clone, Copy, PartialEq, Eq, Debug)]
pub enum Refusal {
    // The name is longer than the catalogue takes.
    TooLong,
    // The name is not held, and no place is left for it.
    Full,
}

impl Refusal {
    // The published number of the refusal, which programs print. The definition `published` gives
    // each case its number.
    pub fn number(self) -> u8
        ensures { result ≡ published self }
    {
        match self {
            Refusal::TooLong => 31,
            Refusal::Full => 32,
        }
    }
}
