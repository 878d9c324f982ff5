ghost use Rattle.std.specs.Prelude.{◌≡◌, ◌≤◌, true};
ghost use Rattle.std.specs.declared.cmp.Ordering.TheVariants.{Equal};
ghost use Rattle.std.specs.declared.cmp.Ordering.{Ordering};
ghost use Rattle.std.specs.Ordering.{is_le, ordering_index};
ghost use Rattle.table.specs.Calls.{Finds};
ghost use Rattle.table.specs.Held.{held};
ghost use Rattle.table.specs.Order.{Strict, seek};

use crate::ordered::Table;
use crate::rows::Row;
use std::cmp::Ordering;

// What a key is given by, where one has no whole row: it tells whether a row stands before the key,
// at it or after it.
pub trait Probe<R: Row> {
    ghost stands: { Self → R → Ordering };

    fn compared(&self, row: &R) -> Ordering
        ensures { result ≡ stands self.now row.now };

    // A later row does not stand before an earlier one.
    ghost rises: { (p : Self) (x y : R) → is_le (R.Row.compare x y) ≡ true → ordering_index (stands p x) ≤ ordering_index (stands p y) };

    // Only rows that tie stand at one key.
    ghost one: { (p : Self) (x y : R) → stands p x ≡ Equal → stands p y ≡ Equal → R.Row.compare x y ≡ Equal };
}

impl<R: Row> Table<R> {
    // The place of a row that stands at the key of a probe.
    pub fn find<P: Probe<R>>(&self, probe: &P) -> Option<usize>
        ensures finds { Finds R.Row.compare (P.Probe.stands probe.now) (held self.now) result }
        ensures exact { Strict R.Row.compare (held self.now) → result ≡ seek (P.Probe.stands probe.now) 0 (held self.now) }
    {
        // No call of the library's searches: a probe that meets its row early stops here, and they
        // never do.
        let mut low = 0;
        let mut high = self.rows.len();
        while low < high {
            let mid = low + (high - low) / 2;
            match probe.compared(&self.rows[mid]) {
                Ordering::Less => low = mid + 1,
                Ordering::Equal => return Some(mid),
                Ordering::Greater => high = mid,
            }
        }
        None
    }
}
