// The C functions: making, one event, a run, a run that gives back its answers, and one SPI selection as bytes, on a state that the host
// holds as an image of 32 bytes.
#![tactic(auto)]

pub mod call;
