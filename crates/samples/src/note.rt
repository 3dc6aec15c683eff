// Bytes into a host's buffer.
ghost use Rattle.std.specs.Prelude.{◌≡◌, set};
ghost use Rattle.parts.specs.Numbers.{answer_number};

use parts::answer::Answer;

// One byte, while there is room for it. Of a slice whose `get_mut` was written through, a proof knows no element.
pub fn note(bytes: &mut [u8], at: usize, byte: u8)
    ensures { bytes.new ≡ set bytes.old at byte }
{
    if at < bytes.len() {
        bytes[at] = byte;
    }
}

// The answer of an accepted event.
pub fn note_answer(answers: &mut [u8], at: usize, answer: Answer)
    ensures { answers.new ≡ set answers.old at (answer_number answer) }
{
    note(answers, at, answer.number());
}
