// What the commands of a template say: its chunks, its parent, what it refers to.
#![tactic(auto)]

pub mod call;
pub mod chunk;
pub mod references;
