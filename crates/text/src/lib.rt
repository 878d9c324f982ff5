// Text as the templates have it: names, parts and lines of a source, spans and columns.
#![tactic(auto)]

pub mod column;
pub mod fault;
pub mod lines;
pub mod name;
pub mod naming;
pub mod part;
pub mod parts;
pub mod span;
pub mod spans;
