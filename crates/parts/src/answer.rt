// What the part drives: document 01's answers 0 to 2.
ghost use Rattle.std.specs.Prelude.{◌≡◌};
ghost use Rattle.parts.specs.Numbers.{answer_number, answer_in, level_of};

#[derive(Clone, Copy, Debug, PartialEq, Eq)]
pub enum Answer {
    Low = 0,
    High = 1,
    // nothing driven
    HighZ = 2,
}

impl Answer {
    pub fn number(self) -> u8
        ensures { result ≡ answer_number self }
    {
        self as u8
    }

    // The answer that has this number; one that no answer has reads as nothing driven.
    pub fn of_number(number: u8) -> Answer
        ensures { result ≡ answer_in number }
    {
        match number {
            0 => Answer::Low,
            1 => Answer::High,
            _ => Answer::HighZ,
        }
    }
}

// The answer that drives a bit.
impl From<bool> for Answer {
    ghost from_gives = { λ bit answer. answer ≡ level_of bit };

    fn from(bit: bool) -> Answer {
        if bit { Answer::High } else { Answer::Low }
    }
}
