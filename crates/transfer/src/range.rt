// Whether the numbers of a phase are in their ranges. The names are those of `selection`, whose phases have other cases and other ranges.
ghost use Rattle.std.specs.Prelude.{◌≡◌};
ghost use Rattle.transfer.specs.Ranges.{field_in, phase_in};

use crate::phase::{Field, Phase};
use parts::part::Part;

fn field_in(part: Part, field: Field) -> bool
    ensures { result ≡ field_in part field }
{
    match field {
        Field::Data { address } => address < part.size,
        _ => true,
    }
}

pub fn phase_in(part: Part, phase: Phase) -> bool
    ensures { result ≡ phase_in part phase }
{
    match phase {
        Phase::Rest | Phase::Ignoring => true,
        Phase::Taking {
            field,
            count,
            value,
        } => field_in(part, field) && count <= 8 && serial::bits::has_bits(value, count),
        Phase::Sending { address, count } => address < part.size && count <= 8,
    }
}
