// A run and a single event on an image and a memory that passed the tests.
#![tactic(auto)]

pub mod event;
pub mod expected;
pub mod fields;
pub mod run;
