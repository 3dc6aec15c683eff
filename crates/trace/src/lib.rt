// Reading one event from the front of a trace's bytes.
#![tactic(auto)]

pub mod event;
pub mod read;
pub mod sample;
