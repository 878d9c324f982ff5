//! Catalogues: which number a filter, a test or a function of the host has, by its name.
#![tactic(auto)]

mod entries;
mod kinds;
mod layers;
mod lookup;
mod reserved;
mod runs;
mod table;

pub use entries::NumberedName;
pub use kinds::{Kind, Refusal};
pub use layers::Overlay;
pub use lookup::Catalogue;
pub use reserved::Registry;
pub use runs::{Registration, ask_after, register_all};
