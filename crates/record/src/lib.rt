// The commands of a record: their letters, their operands, and why a record is refused.
#![tactic(auto)]

pub mod command;
pub mod fault;
pub mod faults;
pub mod letter;
pub mod printed;
pub mod roles;
pub mod table;
