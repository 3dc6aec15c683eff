// The warning flag of a sample. The `flag_of` of `selection` asks CS# in both samples, and no phase.
ghost use Rattle.std.specs.Prelude.{◌≡◌};
ghost use Rattle.transfer.specs.Flag.{between, flag_of};

use crate::levels::Levels;
use crate::phase::Phase;

// Whether the part lies between START and STOP: in every phase but rest.
fn between(phase: Phase) -> bool
    ensures { result ≡ between phase }
{
    !matches!(phase, Phase::Rest)
}

// WP has moved since the sample before, and the part was between START and STOP.
pub fn flag_of(phase: Phase, before: Levels, now: Levels) -> bool
    ensures { result ≡ flag_of phase before now }
{
    before.wp != now.wp && between(phase)
}
