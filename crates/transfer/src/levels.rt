// The levels of one sample; SDA is without the part's own pull.
ghost use Rattle.std.specs.Prelude.{◌≡◌};
ghost use Rattle.transfer.specs.Levels.{levels_of, sample_of};

#[derive(Clone, Copy, Debug, PartialEq, Eq)]
pub struct Levels {
    pub scl: bool,
    pub sda: bool,
    pub wp: bool,
}

impl From<u8> for Levels {
    ghost from_gives = { λ sample levels. levels ≡ levels_of sample };

    fn from(sample: u8) -> Levels {
        Levels {
            scl: sample % 2 == 1,
            sda: sample / 2 % 2 == 1,
            wp: sample / 4 % 2 == 1,
        }
    }
}

// The sample that has these levels.
impl From<Levels> for u8 {
    ghost from_gives = { λ levels sample. (sample ≡ sample_of levels) × (levels_of sample ≡ levels) };

    fn from(levels: Levels) -> u8 {
        u8::from(levels.scl) + 2 * u8::from(levels.sda) + 4 * u8::from(levels.wp)
    }
}
