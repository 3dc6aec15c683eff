// One SPI selection as bytes: its definition on the pins, the fold of byte steps that it is, and the code of its head.
#![tactic(auto)]

pub mod head;
