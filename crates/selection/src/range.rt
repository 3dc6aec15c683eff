// Whether the numbers of a phase are in their ranges.
ghost use Rattle.std.specs.Prelude.{◌≡◌};
ghost use Rattle.parts.specs.Table.{Fit};
ghost use Rattle.selection.specs.Ranges.{field_in, source_in, phase_in};

use crate::phase::{Field, Phase, Source};
use parts::part::Part;

fn field_in(part: Part, field: Field) -> bool
    ensures { result ≡ field_in part field }
{
    match field {
        Field::Dummy { address } | Field::Data { address, .. } => address < part.size,
        _ => true,
    }
}

fn source_in(part: Part, source: Source) -> bool
    ensures { result ≡ source_in part source }
{
    match source {
        Source::Memory { address } => address < part.size,
        Source::Register => true,
        Source::Identity { index } => index <= 3,
    }
}

pub fn phase_in(part: Part, phase: Phase) -> bool
    requires { Fit part }
    ensures { result ≡ phase_in part phase }
{
    match phase {
        Phase::Rest | Phase::Ignoring | Phase::Waiting { .. } => true,
        Phase::Taking {
            field,
            count,
            value,
        } => {
            field_in(part, field)
                && count < crate::phase::width(part, field)
                && serial::bits::has_bits(value, count)
        }
        Phase::Showing { source, bit } => source_in(part, source) && bit < 8,
        Phase::Pending { address, .. } => part.late && address < part.size,
    }
}
