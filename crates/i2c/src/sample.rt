// An I2C part under power.
ghost use Rattle.std.specs.Prelude.{◌≡◌};
ghost use Rattle.i2c.specs.Sample.{answer_of};

use parts::answer::Answer;
use transfer::buffer::AddressBuffer;
use transfer::levels::Levels;
use transfer::phase::Phase;

// What it keeps between samples.
#[derive(Clone, Copy, Debug, PartialEq, Eq)]
pub struct I2c {
    // the levels of the last sample
    pub last: Levels,
    // whether the part pulls the line low
    pub pulling: bool,
    pub buffer: AddressBuffer,
    pub phase: Phase,
}

// The answer of a part that pulls or not.
pub fn answer_of(pulling: bool) -> Answer
    ensures { result ≡ answer_of pulling }
{
    if pulling { Answer::Low } else { Answer::HighZ }
}
