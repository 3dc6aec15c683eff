// Consecutive samples of an I2C part, with expected answers that hold among them: what the loop keeps of the state of the bus, and what a
// sample does to it.
#![tactic(auto)]

pub mod bus;
pub mod consecutive;
pub mod turn;
