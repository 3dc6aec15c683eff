// The bytes of a selection after its head.
#![tactic(auto)]

pub mod data;
