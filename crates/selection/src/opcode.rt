// The command that an opcode names on a part.
ghost use Rattle.std.specs.Prelude.{◌≡◌};
ghost use Rattle.selection.specs.Opcode.{command_of};

use parts::part::Part;

#[derive(Clone, Copy, Debug, PartialEq, Eq)]
pub enum Command {
    WREN,
    WRDI,
    RDSR,
    WRSR,
    READ,
    WRITE,
    FSTRD,
    RDID,
    SLEEP,
    // an opcode that the part lacks
    Unknown,
}

#[tactic(auto, unfolding(crate::specs::Opcode::command_of))]
pub fn command_of(part: Part, opcode: u32) -> Command
    ensures { result ≡ command_of part opcode }
{
    match opcode {
        0x06 => Command::WREN,
        0x04 => Command::WRDI,
        0x05 => Command::RDSR,
        0x01 => Command::WRSR,
        0x03 => Command::READ,
        0x02 => Command::WRITE,
        0x0B if part.fstrd => Command::FSTRD,
        0x9F if part.rdid => Command::RDID,
        0xB9 if part.sleep => Command::SLEEP,
        _ => Command::Unknown,
    }
}
