// Many bytes at once: a memory read from an address up and on from 0 after the top. No byte's address is tested: only where a stretch
// ends is worked out, and each stretch is one copy.
#![tactic(auto)]

ghost use Rattle.std.specs.Prelude.{◌≡◌, ◌<◌, length};
ghost use Rattle.rolled_read.specs.Rolled.{rolled_from};

// Fills the output. A stretch that leaves something to read ended at the top, so the next one starts at 0.
#[tactic(auto, using(crate::proofs::ReadLaws::read_on))]
pub fn read_rolled(memory: &[u8], address: usize, output: &mut [u8])
    requires { address < length memory.now }
    ensures { output.new ≡ rolled_from memory.now address (length output.old) }
{
    let mut ahead = &memory[address..];
    let mut at = 0;
    // no `for` over `chunks_mut`: once it is over, a proof knows the length of the output and none of its bytes
    while at < output.len() {
        let count = ahead.len().min(output.len() - at);
        output[at..at + count].copy_from_slice(&ahead[..count]);
        at += count;
        ahead = memory;
    }
}
