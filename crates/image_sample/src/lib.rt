// A sample of a part under power, taken on the fields of its image. What `inline(always)` stands on is put into the one call, so that the
// fields stay out of memory: without it an event by itself took an eighth more. The rule of a sample, which `spi_samples` and
// `i2c_samples` have on the state, is written again on the fields: by way of the state an event by itself took 120 ns (docs/DECISIONS.md).
#![tactic(auto)]

pub mod bits;
pub mod i2c_sample;
pub mod spi_sample;
pub mod stepped;
