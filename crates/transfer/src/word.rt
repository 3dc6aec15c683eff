// The device address word, the first byte after START.
ghost use Rattle.std.specs.Prelude.{◌≡◌, ◌<◌};
ghost use Rattle.transfer.specs.Word.{own, top_bit, word_of};

use parts::part::Part;

#[derive(Clone, Copy, Debug, PartialEq, Eq)]
pub enum DeviceWord {
    ReadWord { a16: bool },
    WriteWord { a16: bool },
    // not this part's
    OtherWord,
}

fn is_own(part: Part, pins: u8, word: u32) -> bool
    requires { pins < 8 }
    ensures { result ≡ own part pins word }
{
    let pins = u32::from(pins);
    if part.a16 {
        word / 4 == 40 + pins
    } else {
        word / 2 == 80 + pins
    }
}

// A16 of a word, 0 on a part whose word has none.
fn top_bit(part: Part, word: u32) -> bool
    ensures { result ≡ top_bit part word }
{
    part.a16 && word / 2 % 2 == 1
}

#[tactic(auto, unfolding(crate::specs::Word::word_of))]
pub fn word_of(part: Part, pins: u8, word: u32) -> DeviceWord
    requires { pins < 8 }
    ensures { result ≡ word_of part pins word }
{
    if !is_own(part, pins, word) {
        return DeviceWord::OtherWord;
    }
    let a16 = top_bit(part, word);
    if word % 2 == 1 {
        DeviceWord::ReadWord { a16 }
    } else {
        DeviceWord::WriteWord { a16 }
    }
}
