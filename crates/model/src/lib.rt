// The entry points: making, one event, a run, a run that gives back its answers, and one SPI selection as bytes. They take anything and
// refuse by number.
#![tactic(auto)]

pub mod event;
pub mod make;
pub mod run;
pub mod select;
