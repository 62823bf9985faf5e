// URIs with another host, or with parameters of the query set.
#![tactic(auto)]

mod change;
pub mod hosts;
pub mod parameters;
mod query_parts;
mod writing;
