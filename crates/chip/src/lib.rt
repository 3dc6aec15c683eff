// A model's state, and what is tested of it before anything else.
#![tactic(auto)]

pub mod check;
pub mod model;
