ghost use Rattle.catalogue.specs.Meaning.{over};

use crate::kinds::{Kind, Refusal};
use crate::lookup::Catalogue;

// One catalogue laid over another. Its own part answers first, and takes the names that are
// registered.
#[derive(Drop)]
pub struct Overlay<A, B> {
    pub own: A,
    pub below: B,
}

impl<A: Catalogue, B: Catalogue> Catalogue for Overlay<A, B> {
    const LONGEST: usize = A::LONGEST;

    ghost longest = { A.Catalogue.longest };

    ghost means = { λ s. over (A.Catalogue.means s.own) (B.Catalogue.means s.below) };

    fn longest_name() -> usize {
        A::longest_name()
    }

    fn number(&self, kind: Kind, name: &[u8]) -> Option<u16> {
        let own = self.own.number(kind, name);
        own.or_else(|| self.below.number(kind, name))
    }

    fn holds(&self, kind: Kind, name: &[u8]) -> bool {
        self.own.holds(kind, name)
    }

    fn places(&self) -> usize {
        self.own.places()
    }

    fn register(&mut self, kind: Kind, name: &[u8], number: u16) -> Result<(), Refusal> {
        self.own.register(kind, name, number)
    }
}
