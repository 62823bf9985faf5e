// The lines of an HLS playlist, and the attribute lists of its tags.
#![tactic(auto)]

pub mod attributes;
pub mod charset;
pub mod field;
mod fields;
pub mod kind;
pub mod line;
pub mod lines;
pub mod value;
