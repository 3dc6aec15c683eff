// An I2C transfer, bit by bit: the line with START and STOP, the device address word, the address buffer, the phase, which is what the
// part waits for, and the warning flag.
#![tactic(auto)]

pub mod buffer;
pub mod edge;
pub mod flag;
pub mod levels;
pub mod phase;
pub mod range;
pub mod rise;
pub mod word;
