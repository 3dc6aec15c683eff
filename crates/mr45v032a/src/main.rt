// The program for MR45V032A, part 0, on a memory of zeros.
// Each program has a `main` of its own: part and memory size are constants in it, since the memory is an array.
#![tactic(auto)]

fn main() {
    let mut memory = [0; 4096];
    console::serve(0, &mut memory);
}
