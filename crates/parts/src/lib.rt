// The constant table of the parts, the status register, and the numbers given back.
#![tactic(auto)]

pub mod answer;
pub mod part;
pub mod refusal;
pub mod status;
