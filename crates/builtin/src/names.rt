ghost use Rattle.builtin.specs.Table.{Rule, built_ins, builtin, is_known, shown};
ghost use Rattle.std.specs.Prelude.{◌≡◌, map};

use crate::rows::{BUILT_IN, Known};
use catalogue::{Catalogue, Kind, Refusal};

impl Known {
    // Whether this is the name, of this kind. Written beside that of a `NumberedName`, since a `Known`
    // is a tuple.
    pub fn is(&self, kind: Kind, name: &[u8]) -> bool
        ensures { result ≡ is_known (shown self.now) kind name.now }
    {
        self.0 == kind && self.1.as_bytes() == name
    }
}

// Every built-in name, in the order of the numbers.
pub fn known() -> &'static [Known]
    ensures rows { map shown result.now ≡ built_ins }
    ensures rule { Rule }
{
    &BUILT_IN
}

// The catalogue of the built-in names. It holds no names of its own, and takes none.
#[derive(Clone, Copy)]
pub struct Builtin;

impl Catalogue for Builtin {
    const LONGEST: usize = 255;

    ghost longest = { 255 };

    ghost means = { λ _. builtin };

    fn longest_name() -> usize {
        Self::LONGEST
    }

    fn number(&self, kind: Kind, name: &[u8]) -> Option<u16> {
        known()
            .iter()
            .find(|row| row.is(kind, name))
            .map(|row| row.2)
    }

    fn holds(&self, _kind: Kind, _name: &[u8]) -> bool {
        false
    }

    fn places(&self) -> usize {
        0
    }

    fn register(&mut self, _kind: Kind, name: &[u8], _number: u16) -> Result<(), Refusal> {
        Err(if name.len() > Self::LONGEST {
            Refusal::TooLong
        } else {
            Refusal::Full
        })
    }
}
