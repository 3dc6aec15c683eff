// One event of a model that passed the tests of its state: power on and off, expected answers, refusals. Samples under power are taken
// in a loop of their own.
#![tactic(auto)]

pub mod event;
