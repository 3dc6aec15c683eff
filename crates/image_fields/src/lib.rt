// A state as the fields of its image, and back.
#![tactic(auto)]

pub mod fields;
pub mod i2c_phase;
pub mod spi_phase;
pub mod state;
pub mod tag;
