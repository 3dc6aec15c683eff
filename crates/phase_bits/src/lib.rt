// The bits of a field or byte apart from its phase, which is how the loops over samples keep them.
#![tactic(auto)]

// `bits_of`, `value_of` and `with_bits` stand in both: an I2C byte comes in or goes out with nine rises, an SPI field has a width, and a data
// byte may wait.
pub mod byte;
pub mod field;
