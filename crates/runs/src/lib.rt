// Runs and single events of a state and a memory that passed the tests.
#![tactic(auto)]

pub mod one;
pub mod run;
