// What both serial buses share: bits into numbers, addresses that go up, and the store of one byte.
#![tactic(auto)]

pub mod address;
pub mod bits;
pub mod write;
