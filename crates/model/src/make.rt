// Making a model.
ghost use Rattle.std.specs.Prelude.{◌≡◌, ◌<◌};
ghost use Rattle.chip.specs.Model.{unpowered};
ghost use Rattle.parts.specs.Status.{cleared};
ghost use Rattle.model.specs.Made.{made_of};
ghost use Rattle.model.specs.Make.{status_of, settings_in, make_in, make_of};

use chip::model::Model;
use parts::part::{PARTS, Part};
use parts::refusal::Refusal;
use parts::status::Status;

// Why a making is refused, if it is, and the model: one comes back in any case.
#[derive(Clone, Copy, Debug, PartialEq, Eq)]
pub struct Making {
    pub refusal: Option<Refusal>,
    pub model: Model,
}

// The register that holds saved bits.
fn status_of(bits: u32) -> Status
    ensures { result ≡ status_of bits }
{
    Status {
        srwd: bits / 4 % 2 == 1,
        bp1: bits / 2 % 2 == 1,
        bp0: bits % 2 == 1,
        wel: false,
    }
}

// Whether a part can have these address pins and saved bits.
fn settings_in(part: Part, pins: u32, bits: u32) -> bool
    ensures { result ≡ settings_in part pins bits }
{
    let limit = if part.saved { 8 } else { 1 };
    pins < u32::from(part.pins) && bits < limit
}

fn make_in(part: u32, pins: u32, bits: u32) -> bool
    ensures { result ≡ make_in part pins bits }
{
    (part as usize) < PARTS.len() && settings_in(parts::part::part_of(part as usize), pins, bits)
}

// A model without power, or 1 with the model of part 0.
#[tactic(auto, unfolding(crate::specs::Make::make_of))]
pub fn make(part: u32, pins: u32, bits: u32) -> Making
    ensures { made_of result ≡ make_of part pins bits }
{
    if !make_in(part, pins, bits) {
        return Making {
            refusal: Some(Refusal::ModelRange),
            model: unmade(),
        };
    }
    Making {
        refusal: None,
        model: chip::model::unpowered(part, pins, status_of(bits)),
    }
}

// The model that stands for a refused making: part 0.
pub fn unmade() -> Model
    ensures { result ≡ unpowered 0 0 cleared }
{
    chip::model::unpowered(0, 0, Status::CLEARED)
}
