// What a sample does on an SPI part: bits shown, bytes stored.
#![tactic(auto)]

pub mod sample;
pub mod show;
pub mod store;
