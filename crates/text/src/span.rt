// Where in its source a command was written: lines count from 1, columns from 0, and `from` to `to`
// are bytes. Numbers, and no slice, as in a `Part`: written out again, they are the record.
use crate::column::StoredColumn;

#[derive(Clone, Copy)]
pub struct Span {
    pub start_line: u32,
    pub start_col: StoredColumn,
    pub end_line: u32,
    pub end_col: StoredColumn,
    pub from: u32,
    pub to: u32,
}
