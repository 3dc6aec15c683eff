// An SPI part under power.
ghost use Rattle.std.specs.Prelude.{◌≡◌};
ghost use Rattle.spi.specs.Sample.{selected};

use parts::answer::Answer;
use selection::levels::Levels;
use selection::phase::{Field, Phase};

// What it keeps between samples, beside the status register.
#[derive(Clone, Copy, Debug, PartialEq, Eq)]
pub struct Spi {
    // the levels of the last sample
    pub last: Levels,
    pub asleep: bool,
    // what SO shows while the part is selected and not held
    pub shown: Answer,
    pub phase: Phase,
}

// The phase after CS# falls.
pub fn select(asleep: bool) -> Phase
    ensures { result ≡ selected asleep }
{
    if asleep {
        Phase::Ignoring
    } else {
        selection::rise::taking(Field::Opcode)
    }
}
