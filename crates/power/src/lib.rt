// What power on makes of a bus, and what power off leaves of the status register.
#![tactic(auto)]

pub mod power;
