// What every layer of the library speaks in: byte classes, refusals, bounded texts, seconds and moments.
#![tactic(auto)]

pub mod classes;
pub mod copying;
pub mod draft;
pub mod fault;
pub mod layer;
pub mod names;
pub mod refusal;
pub mod text;
pub mod time;
