// What every call on an image does first and last: the tests that give 2 and 3, and what is written into its result.
#![tactic(auto)]

pub mod open;
pub mod result;
