// Why a call is refused: the numbers given back of document 01, and of document 02 from 10 on, in the order in which they are tested.
ghost use Rattle.std.specs.Prelude.{◌≡◌};
ghost use Rattle.parts.specs.Numbers.{refusal_number, number_of};

#[derive(Clone, Copy, Debug, PartialEq, Eq)]
pub enum Refusal {
    // 1: no such part, or pins or saved bits that it cannot have
    ModelRange = 1,
    // 2: something else in the state is out of its range
    StateRange = 2,
    // 3: the memory is longer or shorter than the part's
    MemoryLength = 3,
    // 4: no such kind, or the power on of the other bus; a selection as bytes on an I2C part
    UnknownKind = 4,
    // 5: the event's bytes are not all there
    Truncated = 5,
    // 6: a sample too large
    SampleRange = 6,
    // 10: a start address of the size or more
    StartRange = 10,
    // 11: an expected answer above 2
    ExpectedRange = 11,
    // 7: an event that needs power, without it
    Unpowered = 7,
    // 8: a power on under power
    Powered = 8,
    // 9: the part answers something else than expected
    Unexpected = 9,
    // of a selection as bytes: no power, or CS# was not 1 in the last sample (12)
    NotDeselected = 12,
    // the buffer for what comes back is not as long as the bytes that go in (13)
    BufferLength = 13,
}

impl Refusal {
    // Like that of an answer, the numbers of the papers: a trait for the two would have no third type and no caller.
    pub fn number(self) -> u8
        ensures { result ≡ refusal_number self }
    {
        self as u8
    }
}

// 0 for a call that is not refused.
pub fn number_of(refusal: Option<Refusal>) -> u8
    ensures { result ≡ number_of refusal }
{
    refusal.map_or(0, |refusal| refusal.number())
}
