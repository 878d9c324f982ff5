ghost use Rattle.std.specs.Prelude.{◌≡◌, IfOk, position};
ghost use Rattle.catalogue.specs.Entries.{empty, registry, spells};

use crate::entries::NumberedName;
use crate::kinds::{Kind, Refusal};
use crate::lookup::Catalogue;
use crate::reserved::Registry;
use arrayvec::ArrayVec;
use std::alloc::{AllocError, Global};

impl Registry {
    // A catalogue with `places` places and no names. No later call asks for memory.
    pub fn with_places(heap: Global, places: usize) -> Result<Registry, AllocError>
        ensures { IfOk result (λ t. registry t ≡ empty places) }
    {
        let entries = Vec::with_capacity(heap, places)?;
        Ok(Registry {
            entries,
            limit: places,
        })
    }

    // Where the first entry of a name stands.
    fn place(&self, kind: Kind, name: &[u8]) -> Option<usize>
        ensures { result ≡ position (λ e. spells e kind name.now) self.now.entries.items }
    {
        self.entries.iter().position(|entry| entry.is(kind, name))
    }
}

impl Catalogue for Registry {
    const LONGEST: usize = 63;

    ghost longest = { 63 };

    ghost means = { registry };

    fn longest_name() -> usize {
        Self::LONGEST
    }

    fn number(&self, kind: Kind, name: &[u8]) -> Option<u16> {
        self.entries
            .iter()
            .find(|entry| entry.is(kind, name))
            .map(|entry| entry.number)
    }

    fn holds(&self, kind: Kind, name: &[u8]) -> bool {
        self.number(kind, name).is_some()
    }

    fn places(&self) -> usize {
        self.limit - self.entries.len()
    }

    fn register(&mut self, kind: Kind, name: &[u8], number: u16) -> Result<(), Refusal> {
        if name.len() > Self::LONGEST {
            return Err(Refusal::TooLong);
        }
        // By index: after `iter_mut().find(..)` a proof knows only the number of entries.
        match self.place(kind, name) {
            Some(i) => self.entries[i].number = number,
            None if self.places() == 0 => return Err(Refusal::Full),
            None => {
                let name = ArrayVec::try_from(name).unwrap();
                self.entries
                    .push_reserved(NumberedName { kind, name, number });
            }
        }
        Ok(())
    }
}
