// The two steps of a run, of a state that passed the tests: consecutive samples by the loop of their bus, and one other event.
#![tactic(auto)]

pub mod consecutive;
pub mod other;
