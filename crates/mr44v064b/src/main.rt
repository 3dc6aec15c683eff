// The program for MR44V064B, part 3, on a memory of zeros.
#![tactic(auto)]

fn main() {
    let mut memory = [0; 8192];
    console::serve(3, &mut memory);
}
