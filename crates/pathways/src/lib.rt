// Sets of pathways and descriptions: what they mean, what they answer, and how an ID is found in any of them.
#![tactic(auto)]

pub mod answering;
pub mod description;
pub mod dialect;
pub mod finding;
pub mod ids;
pub mod limits;
pub mod set;
