// The image of a state: the bytes that a host holds it in.
#![tactic(auto)]

pub mod layout;
pub mod taken;
