// Bytes written to a memory from an address up, and on from 0 after the top, those at a protected start or above passed over. The
// memory is written in stretches that reach at most to the top, each by one copy: no byte's address is looked at.
#![tactic(auto)]

ghost use Rattle.std.specs.Prelude.{◌≡◌, ◌+◌, ◌<◌, ◌≤◌, length};
ghost use Rattle.rolled_write.specs.Written.{written_from};

// A stretch that ends at the top or before it: its bytes below start are stored.
#[tactic(auto, using(crate::proofs::WrittenLaws::stretch_copied))]
fn write_stretch(memory: &mut [u8], address: usize, start: usize, stretch: &[u8])
    requires { address + length stretch.now ≤ length memory.old }
    ensures { memory.new ≡ written_from start memory.old address stretch.now }
{
    let stored = start.saturating_sub(address).min(stretch.len());
    memory[address..address + stored].copy_from_slice(&stretch[..stored]);
}

// The bytes that fit up to the top, and the others from 0, a whole memory at a time.
pub fn write_rolled(memory: &mut [u8], address: usize, start: usize, bytes: &[u8])
    requires { address < length memory.old }
    ensures { memory.new ≡ written_from start memory.old address bytes.now }
{
    let (first, rest) = bytes.split_at(bytes.len().min(memory.len() - address));
    write_stretch(memory, address, start, first);
    for stretch in rest.chunks(memory.len()) {
        write_stretch(memory, 0, start, stretch);
    }
}
