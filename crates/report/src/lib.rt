// A run of a trace as text: what the two programs print, on lent slices.
#![tactic(auto)]

pub mod show;
pub mod text;
