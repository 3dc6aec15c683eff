// Example 12 of document 01: RDID on MR45V200B, part 2, with an expected answer after each of 24 falls and of eight more.
#![tactic(auto)]

fn zeros() -> [u8; 262144] {
    [0; 262144]
}

fn main() {
    let mut memory = zeros();
    console::serve(2, &mut memory);
}
