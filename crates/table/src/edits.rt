ghost use Rattle.std.specs.Prelude.{◌≡◌, ◌+◌, ◌<◌, ◌≤◌, Bool, true, [], ◌∷◌, ◌++◌, is_ok, vec_len};
ghost use Rattle.std.specs.List.{insert};
ghost use Rattle.std.specs.List.Sorted.{IsPermutation};
ghost use Rattle.table.specs.Calls.{Becomes, Cleared, Inserts, Puts, PutsExactly, Removes, TakesLast};
ghost use Rattle.table.specs.Held.{held};
ghost use Rattle.table.specs.Order.{Absent, Ascending, InOrder, Strict, insert_in};

use crate::ordered::Table;
use crate::rows::Row;
use std::mem::replace;

impl<R> Table<R> {
    // Lets a row in at a place, of which there is room for one more.
    pub(crate) fn put(&mut self, place: usize, row: R)
        requires within { place ≤ vec_len self.old.rows }
        requires room { vec_len self.old.rows < self.old.limit }
        ensures { Becomes self.old (insert (held self.old) place row) self.new }
    {
        self.rows.insert(place, row).unwrap();
    }

    // Takes the row at a place out; the later rows close the gap.
    pub fn remove(&mut self, place: usize) -> Option<R>
        ensures does { Removes self.old place result self.new }
        ensures order { (test : R → R → Bool) → InOrder test (held self.old) → InOrder test (held self.new) }
    {
        if place >= self.rows.len() {
            return None;
        }
        Some(self.rows.remove(place))
    }

    // Takes the last row out.
    pub fn take_last(&mut self) -> Option<R>
        ensures does { TakesLast self.old result self.new }
        ensures order { (test : R → R → Bool) → InOrder test (held self.old) → InOrder test (held self.new) }
    {
        self.rows.pop()
    }

    // Takes every row out, and counts from 0 again.
    pub fn clear(&mut self)
    where
        R: Drop,
        ensures { Cleared self.old self.new }
    {
        self.rows.clear();
        self.came = 0;
    }
}

impl<R: Row> Table<R> {
    // The place after the rows that are not greater, up to the first that is.
    pub(crate) fn place(&self, row: &R) -> usize
        ensures within { result ≤ vec_len self.now.rows }
        ensures there { insert (held self.now) result row.now ≡ insert_in R.compare row.now (held self.now) }
    {
        self.rows
            .iter()
            .position(|other| other.cmp(row).is_gt())
            .unwrap_or(self.rows.len())
    }

    // Lets a row in among the others; a full table gives it back, and nothing is altered.
    pub fn insert(&mut self, row: R) -> Result<(), R>
        ensures does { Inserts R.compare self.old row result self.new }
        ensures same { is_ok result ≡ true → IsPermutation (held self.old ++ row ∷ []) (held self.new) }
        ensures ascending { Ascending R.compare (held self.old) → Ascending R.compare (held self.new) }
        ensures strict { Strict R.compare (held self.old) → Absent R.key (held self.old) row → Strict R.compare (held self.new) }
    {
        if self.is_full() {
            return Err(row);
        }
        let place = self.place(&row);
        self.put(place, row);
        Ok(())
    }

    // Puts a row in the place of one with its key, which is given back, or lets it in where there
    // is none.
    pub fn replace(&mut self, row: R) -> Result<Option<R>, R>
        ensures does { Puts R.compare R.key self.old row result self.new }
        ensures exact { Strict R.compare (held self.old) → PutsExactly R.compare self.old row result self.new }
        ensures ascending { Ascending R.compare (held self.old) → Ascending R.compare (held self.new) }
        ensures strict { Strict R.compare (held self.old) → Strict R.compare (held self.new) }
    {
        match self.locate(&row) {
            Ok(i) => Ok(Some(replace(&mut self.rows[i], row))),
            Err(i) => {
                if self.is_full() {
                    return Err(row);
                }
                self.put(i, row);
                Ok(None)
            }
        }
    }
}
