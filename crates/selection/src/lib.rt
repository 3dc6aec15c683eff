// An SPI selection, bit by bit: levels and counted edges, the warning flag, opcodes, and the phase, which is what the part waits for.
#![tactic(auto)]

pub mod edge;
pub mod flag;
pub mod levels;
pub mod opcode;
pub mod phase;
pub mod range;
pub mod rise;
