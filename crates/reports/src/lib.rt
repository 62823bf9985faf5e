// What the test programs share: how they read bytes, and what they print of a text that was read as a description.
#![tactic(auto)]

pub mod hexes;
pub mod report;
#[cfg(test)]
mod tests;
