ghost use Rattle.catalogue.specs.Meaning.{after};
ghost use Rattle.catalogue.specs.Runs.{Leaves, all_after, said, turned_down};
ghost use Rattle.std.specs.Prelude.{◌≡◌, true, map, is_some};

use crate::entries::NumberedName;
use crate::kinds::Kind;
use crate::lookup::Catalogue;

// A name that is to have a number.
pub type Registration<'a> = NumberedName<&'a [u8]>;

// Registers a name and then asks for a name, the same or another: a name that was known still is.
pub fn ask_after<C: Catalogue>(
    catalogue: &mut C,
    new: Registration,
    kind: Kind,
    name: &[u8],
) -> Option<u16>
    ensures leaves { C.means catalogue.new ≡ after C.longest (C.means catalogue.old) new.entry.kind new.entry.name.now new.entry.number }
    ensures asks { result ≡ (after C.longest (C.means catalogue.old) new.entry.kind new.entry.name.now new.entry.number).map kind name.now }
    ensures known { is_some ((C.means catalogue.old).map kind name.now) ≡ true → is_some result ≡ true }
{
    let _ = catalogue.register(new.kind, new.name, new.number);
    catalogue.number(kind, name)
}

// Registers each name of a list in turn, and tells how many were refused.
pub fn register_all<C: Catalogue>(catalogue: &mut C, list: &[Registration]) -> usize
    ensures counts { result ≡ turned_down C.longest (C.means catalogue.old) (map said list.now) }
    ensures leaves { C.means catalogue.new ≡ all_after C.longest (C.means catalogue.old) (map said list.now) }
    ensures law { Leaves C.longest (C.means catalogue.old) (map said list.now) (C.means catalogue.new) }
{
    // A loop: a filter whose test registers gets no proof of what it leaves.
    let mut refused = 0;
    for new in list {
        if catalogue.register(new.kind, new.name, new.number).is_err() {
            refused += 1;
        }
    }
    refused
}
