// The warning flag of a sample.
ghost use Rattle.std.specs.Prelude.{◌≡◌};
ghost use Rattle.selection.specs.Flag.{flag_of};

use crate::levels::Levels;

// WP# has moved since the sample before, and CS# is 0 in both.
pub fn flag_of(before: Levels, now: Levels) -> bool
    ensures { result ≡ flag_of before now }
{
    before.wp != now.wp && !before.cs && !now.cs
}
