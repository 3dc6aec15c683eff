// What a sample writes, and the function that stores one byte to a lent memory; `rolled_write` stores many.
ghost use Rattle.std.specs.Prelude.{◌≡◌, length};
ghost use Rattle.serial.specs.Write.{applied, Within};

#[derive(Clone, Copy, Debug, PartialEq, Eq)]
pub struct Write {
    pub address: u32,
    pub value: u8,
}

pub fn apply(write: Option<Write>, memory: &mut [u8])
    requires { Within (length memory.old) write }
    ensures { memory.new ≡ applied write memory.old }
{
    if let Some(Write { address, value }) = write {
        memory[address as usize] = value;
    }
}
