ghost use Rattle.catalogue.specs.Meaning.{same};
ghost use Rattle.std.specs.Prelude.{◌≡◌};

use crate::kinds::Kind;
use arrayvec::ArrayVec;
use std::convert::AsSlice;

// A name of some kind, with its number.
#[derive(Clone, Copy, Drop)]
pub struct NumberedName<N> {
    pub kind: Kind,
    pub name: N,
    pub number: u16,
}

impl<N: AsSlice<u8>> NumberedName<N> {
    // Whether it is of this kind and name.
    pub(crate) fn is(&self, kind: Kind, name: &[u8]) -> bool
        ensures { result ≡ same self.now.kind (N.items self.now.name) kind name.now }
    {
        self.kind == kind && self.name.as_slice() == name
    }
}

// A registered name, kept in place.
pub(crate) type Entry = NumberedName<ArrayVec<u8, 63>>;
