// HLS playlists as descriptions.
#![tactic(auto)]

pub mod reading;
mod source;
