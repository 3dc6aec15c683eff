// Whether the part pulls the line low after a fall of SCL.
ghost use Rattle.std.specs.Prelude.{◌≡◌, ◌<◌, length};
ghost use Rattle.i2c.specs.Pull.{acknowledges, pulls_after};
ghost use Rattle.transfer.specs.Ranges.{PhaseIn};

use parts::part::Part;
use transfer::phase::{Field, Phase};
use transfer::word::DeviceWord;

// Whether a byte that came in as value is acknowledged: any but another part's word.
fn acknowledge(part: Part, pins: u8, field: Field, value: u32) -> bool
    requires { pins < 8 }
    ensures { result ≡ acknowledges part pins field value }
{
    match field {
        Field::Word => transfer::word::word_of(part, pins, value) != DeviceWord::OtherWord,
        _ => true,
    }
}

pub fn pulls_after(part: Part, pins: u8, memory: &[u8], phase: Phase) -> bool
    requires { (pins < 8) × (length memory.now ≡ part.size) × PhaseIn part phase }
    ensures { result ≡ pulls_after part pins memory.now phase }
{
    match phase {
        Phase::Rest | Phase::Ignoring => false,
        Phase::Taking {
            field,
            count,
            value,
        } => count >= 8 && acknowledge(part, pins, field, value),
        Phase::Sending { address, count } => {
            count < 8 && !serial::bits::bit_at(memory[address as usize], count)
        }
    }
}
