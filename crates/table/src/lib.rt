// Service tables: the binary form of a description.
#![tactic(auto)]

mod bodies;
pub mod check;
mod contents;
pub mod entry;
pub mod kind;
mod layout;
pub mod reading;
mod sense;
