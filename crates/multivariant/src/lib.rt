// Multivariant playlists: what their tags say, their streams, and the rules that they are held to.
#![tactic(auto)]

pub mod check;
mod counting;
pub mod entries;
pub mod entry;
mod kinds;
pub mod named;
mod offences;
pub mod placed;
pub mod span;
mod spans;
pub mod steering;
pub mod stream;
mod streams;
mod tag;
