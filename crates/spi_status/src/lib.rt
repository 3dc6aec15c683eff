// What CS# rising does on an SPI part: the status register with its write enable latch, and sleep.
#![tactic(auto)]

pub mod deselect;
