// Consecutive samples of a part under power: the loop, what it asks of the state of a bus, how far it has come, the sample that the next
// event amounts to, and where an answer is noted.
#![tactic(auto)]

pub mod consecutive;
pub mod kept;
pub mod note;
pub mod progress;
