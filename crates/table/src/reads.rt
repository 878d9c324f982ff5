ghost use Rattle.std.specs.Option.{option_map};
ghost use Rattle.std.specs.Prelude.{◌≡◌, length, IfOk, nat_le};
ghost use Rattle.std.specs.List.{slice_get};
ghost use Rattle.table.specs.Calls.{Found, Fresh, Searched};
ghost use Rattle.table.specs.Held.{held};
ghost use Rattle.table.specs.Order.{Strict, seek};

use crate::ordered::Table;
use crate::rows::Row;
use std::alloc::{AllocError, Global};

impl<R> Table<R> {
    // An empty table with room for `limit` rows: the only call that asks for memory.
    pub fn with_rows(heap: Global, limit: usize) -> Result<Table<R>, AllocError>
        ensures { IfOk result (λ t. Fresh limit t) }
    {
        let rows = Vec::with_capacity(heap, limit)?;
        Ok(Table {
            rows,
            limit,
            came: 0,
        })
    }

    pub fn len(&self) -> usize
        ensures { result ≡ length (held self.now) }
    {
        self.rows.len()
    }

    pub fn limit(&self) -> usize
        ensures { result ≡ self.now.limit }
    {
        self.limit
    }

    // How many rows came by `keep_first`, since the table was made or cleared.
    pub fn came(&self) -> usize
        ensures { result ≡ self.now.came }
    {
        self.came
    }

    pub fn is_full(&self) -> bool
        ensures { result ≡ nat_le self.now.limit (length (held self.now)) }
    {
        self.len() >= self.limit
    }

    pub fn rows(&self) -> &[R]
        ensures { result.now ≡ held self.now }
    {
        self.rows.as_slice()
    }

    // The row at a place, the first at 0.
    pub fn get(&self, place: usize) -> Option<&R>
        ensures { option_map (λ x. x.now) result ≡ slice_get (held self.now) place }
    {
        self.rows.get(place)
    }
}

impl<R: Row> Table<R> {
    // The place of a row with the key of `row`, or else the place where `row` belongs.
    pub(crate) fn locate(&self, row: &R) -> Result<usize, usize>
        ensures { Searched R.compare R.key (held self.now) row.now result }
    {
        self.rows.binary_search(row)
    }

    // The place of a row with the key of `row`.
    pub fn search(&self, row: &R) -> Option<usize>
        ensures finds { Found R.compare R.key (held self.now) row.now result }
        ensures exact { Strict R.compare (held self.now) → result ≡ seek (λ y. R.compare y row.now) 0 (held self.now) }
    {
        self.locate(row).ok()
    }
}
