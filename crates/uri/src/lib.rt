// URIs of http and https: their parts, and which of them are legal.
#![tactic(auto)]

mod component;
pub mod cutting;
pub mod legality;
pub mod parts;
pub mod splitting;
