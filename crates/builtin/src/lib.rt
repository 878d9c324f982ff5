//! The built-in names: the catalogue that every template may count on.
#![tactic(auto)]

mod names;
mod rows;

pub use names::{Builtin, known};
pub use rows::Known;
