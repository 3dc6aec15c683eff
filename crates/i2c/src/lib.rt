// What a sample does on an I2C part: acknowledges, bits sent, bytes stored.
#![tactic(auto)]

pub mod pull;
pub mod sample;
pub mod store;
