// Which buffers are images, by tests on their fields alone: no state is made.
#![tactic(auto)]

pub mod fields;
pub mod i2c_phase;
pub mod phase;
pub mod spi_phase;
pub mod taken;
