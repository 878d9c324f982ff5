//! An ordered table: rows that stand in order, in room that is reserved when the table is made.
#![tactic(auto)]

mod edits;
mod keeping;
mod names;
mod ordered;
mod probes;
mod reads;
mod rows;

pub use keeping::firsts;
pub use ordered::Table;
pub use probes::Probe;
pub use rows::Row;
