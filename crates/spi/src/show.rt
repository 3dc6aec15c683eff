// What SO shows.
ghost use Rattle.std.specs.Prelude.{◌≡◌, ◌<◌, length};
ghost use Rattle.parts.specs.Numbers.{level_of};
ghost use Rattle.serial.specs.Bits.{bit_at};
ghost use Rattle.spi.specs.Show.{shown_bit, after_fall, answer_at};
ghost use Rattle.selection.specs.Ranges.{ShowingIn, PhaseIn};

use parts::answer::Answer;
use parts::part::Part;
use parts::status::Status;
use selection::levels::Levels;
use selection::phase::{Phase, Source};

fn shown_bit(part: Part, status: Status, memory: &[u8], source: Source, bit: u8) -> Answer
    requires { (length memory.now ≡ part.size) × ShowingIn part source bit }
    ensures { result ≡ shown_bit part status memory.now source bit }
{
    match source {
        Source::Memory { address } => level(memory[address as usize], bit),
        Source::Register => level(status.byte(), bit),
        Source::Identity { index } => part
            .identity
            .get(usize::from(index))
            .map_or(Answer::HighZ, |byte| level(*byte, bit)),
    }
}

// Bit 7 - bit of a byte, driven.
fn level(byte: u8, bit: u8) -> Answer
    requires { bit < 8 }
    ensures { result ≡ level_of (bit_at byte bit) }
{
    Answer::from(serial::bits::bit_at(byte, bit))
}

// What is shown after a counted fall, where shown was before.
pub fn after_fall(part: Part, status: Status, memory: &[u8], phase: Phase, shown: Answer) -> Answer
    requires { (length memory.now ≡ part.size) × PhaseIn part phase }
    ensures { result ≡ after_fall part status memory.now phase shown }
{
    match phase {
        Phase::Showing { source, bit } => shown_bit(part, status, memory, source, bit),
        _ => shown,
    }
}

// The answer at the levels now, where SO shows shown.
pub fn answer_at(now: Levels, shown: Answer) -> Answer
    ensures { result ≡ answer_at now shown }
{
    if now.hold && !now.cs {
        shown
    } else {
        Answer::HighZ
    }
}
