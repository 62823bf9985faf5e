// References, and the URIs that they stand for.
#![tactic(auto)]

mod choosing;
mod composing;
mod removal;
pub mod resolution;
pub mod segment;
mod segments;
mod slashes;
mod target;
