ghost use Rattle.std.specs.Prelude.{◌≡◌, List, [], ◌∷◌, ◌++◌, length, IfOk, OnOk};
ghost use Rattle.table.specs.Calls.{Kept, Keeps};
ghost use Rattle.table.specs.Held.{held};
ghost use Rattle.table.specs.Order.{Ascending, Sorts, sorted};

use crate::ordered::Table;
use crate::rows::Row;
use std::alloc::{AllocError, Global};

impl<R: Row> Table<R> {
    // Lets a row in and counts it; where the table is full, the greatest row has no place and is
    // given back.
    //
    // So after any rows, one by one, the table holds the first of them all. That it does is a clause,
    // and no fact of the type: which rows came is no part of a table.
    pub fn keep_first(&mut self, row: R) -> Option<R>
        ensures does { Keeps R.compare self.old row result self.new }
        ensures first { (all : List R) → Kept R.compare all self.old → Kept R.compare (all ++ row ∷ []) self.new }
        ensures ascending { Ascending R.compare (held self.old) → Ascending R.compare (held self.new) }
    {
        self.came = self.came.saturating_add(1);
        let place = self.place(&row);
        if !self.is_full() {
            self.put(place, row);
            return None;
        }
        if place >= self.limit {
            return Some(row);
        }
        let last = self.rows.pop();
        self.put(place, row);
        last
    }

    // Offers each of some rows, in turn.
    pub fn keep_all(&mut self, rows: &[R])
    where
        R: Copy,
        ensures limit { self.new.limit ≡ self.old.limit }
        ensures first { (all : List R) → Kept R.compare all self.old → Kept R.compare (all ++ rows.now) self.new }
    {
        for row in rows {
            let _ = self.keep_first(*row);
        }
    }
}

// A table of the first `limit` of some rows, in order, that counts them all.
pub fn firsts<R: Row + Copy>(heap: Global, limit: usize, rows: &[R]) -> Result<Table<R>, AllocError>
    ensures limit { IfOk result (λ t. t.limit ≡ limit) }
    ensures first { IfOk result (λ t. Kept R.compare rows.now t) }
    ensures sorts { OnOk result (Sorts R.compare rows.now (sorted R.compare rows.now)) }
    ensures counted { IfOk result (λ t. t.came ≡ length rows.now) }
{
    let mut table = Table::with_rows(heap, limit)?;
    table.keep_all(rows);
    Ok(table)
}
