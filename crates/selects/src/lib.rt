// One SPI selection as bytes on a state and memory that passed: all of it, and what refuses it.
#![tactic(auto)]

pub mod select;
pub mod taken;
