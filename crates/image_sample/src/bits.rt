// The fields of a phase after a rise before the last bit.
ghost use Rattle.std.specs.Prelude.{◌≡◌, ◌<◌};
ghost use Rattle.image_sample.specs.Bits.{counted, one_more};

use image_fields::fields::PhaseFields;

// One bit is counted, and the number that the bits make is value.
fn counted(phase: PhaseFields, value: u32) -> PhaseFields
    requires { phase.count < 255 }
    ensures { result ≡ counted phase value }
{
    PhaseFields {
        count: phase.count + 1,
        value,
        ..phase
    }
}

// By the tag's first digit: bits come in at 1, go out at 2, and no rise changes another phase.
pub fn one_more(phase: PhaseFields, bit: bool) -> PhaseFields
    requires { (phase.count < 255) × (phase.value < 2147483648) }
    ensures { result ≡ one_more phase bit }
{
    // tags of a state's image, by their first digit (docs/IMAGE.md)
    match phase.tag {
        0x10..=0x1F => counted(phase, serial::bits::shift_in(phase.value, bit)),
        0x20..=0x2F => counted(phase, phase.value),
        _ => phase,
    }
}
