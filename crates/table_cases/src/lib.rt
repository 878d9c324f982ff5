//! The ordered table at work: rows of two orders, and cases that are run.
#![tactic(auto)]

mod calling;
mod roll;
#[cfg(test)]
mod tests;
mod weighed;
mod weighing;

pub use roll::Roll;
pub use weighed::{Scale, Weighed};
