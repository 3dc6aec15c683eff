// The pin levels of one sample.
ghost use Rattle.std.specs.Prelude.{◌≡◌};
ghost use Rattle.selection.specs.Levels.{levels_of, sample_of};

#[derive(Clone, Copy, Debug, PartialEq, Eq)]
pub struct Levels {
    pub cs: bool,
    pub sck: bool,
    pub si: bool,
    pub wp: bool,
    pub hold: bool,
}

impl From<u8> for Levels {
    ghost from_gives = { λ sample levels. levels ≡ levels_of sample };

    fn from(sample: u8) -> Levels {
        Levels {
            cs: sample % 2 == 1,
            sck: sample / 2 % 2 == 1,
            si: sample / 4 % 2 == 1,
            wp: sample / 8 % 2 == 1,
            hold: sample / 16 % 2 == 1,
        }
    }
}

// The sample that has these levels.
impl From<Levels> for u8 {
    ghost from_gives = { λ levels sample. (sample ≡ sample_of levels) × (levels_of sample ≡ levels) };

    fn from(levels: Levels) -> u8 {
        u8::from(levels.cs)
            + 2 * u8::from(levels.sck)
            + 4 * u8::from(levels.si)
            + 8 * u8::from(levels.wp)
            + 16 * u8::from(levels.hold)
    }
}
