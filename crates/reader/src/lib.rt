// The reader: a record is read once, command by command, and kept as a list.
#![tactic(auto)]

pub mod commands;
pub mod listing;
pub mod listings;
pub mod nest;
pub mod read;
pub mod reading;
pub mod state;
