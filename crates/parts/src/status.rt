// The status register of an SPI part.
ghost use Rattle.std.specs.Prelude.{◌≡◌, ◌<◌};
ghost use Rattle.parts.specs.Status.{status_byte, status_in, block_bits, protected_start, with_wel};

use crate::part::Part;

#[derive(Clone, Copy, Debug, PartialEq, Eq)]
pub struct Status {
    // status register write disable
    pub srwd: bool,
    // block protection
    pub bp1: bool,
    pub bp0: bool,
    // write enable latch
    pub wel: bool,
}

impl Status {
    pub const CLEARED: Status = Status {
        srwd: false,
        bp1: false,
        bp0: false,
        wel: false,
    };

    // The byte that RDSR shows.
    pub fn byte(self) -> u8
        ensures { result ≡ status_byte self }
    {
        128 * u8::from(self.srwd)
            + 8 * u8::from(self.bp1)
            + 4 * u8::from(self.bp0)
            + 2 * u8::from(self.wel)
    }

    // BP1 BP0 as a number.
    pub fn block_bits(self) -> u8
        ensures { (result ≡ block_bits self) × (result < 4) }
    {
        2 * u8::from(self.bp1) + u8::from(self.bp0)
    }

    // The first protected address, or the size if none is protected: by BP1 BP0 nothing, the top quarter, the top half, all.
    #[tactic(auto, unfolding(crate::specs::Status::protected_start))]
    pub fn protected_start(self, part: Part) -> u32
        ensures { result ≡ protected_start self part }
    {
        let size = part.size;
        match (self.bp1, self.bp0) {
            (false, false) => size,
            (false, true) => size - size / 4,
            (true, false) => size - size / 2,
            (true, true) => 0,
        }
    }

    pub fn with_wel(self, wel: bool) -> Status
        ensures { result ≡ with_wel self wel }
    {
        Status { wel, ..self }
    }
}

// The register that a byte names; its other bits are left out.
impl From<u8> for Status {
    ghost from_gives = { λ byte status. status ≡ status_in byte };

    fn from(byte: u8) -> Status {
        Status {
            srwd: byte / 128 % 2 == 1,
            bp1: byte / 8 % 2 == 1,
            bp0: byte / 4 % 2 == 1,
            wel: byte / 2 % 2 == 1,
        }
    }
}
