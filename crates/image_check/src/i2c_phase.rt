// Whether fields are those of a phase of an I2C part, with its numbers in range.
ghost use Rattle.std.specs.Prelude.{◌≡◌, ◌^◌, ◌&&◌, eqb, ltb};
ghost use Rattle.transfer.specs.Ranges as Ranges;
ghost use Rattle.image_fields.specs.Fields.{same_phase};
ghost use Rattle.image_fields.specs.I2cPhase.{a16_address, a16_in, fields_of, phase_in};

use crate::phase::{bare, bits_in, sent, unaddressed};
use image_fields::fields::PhaseFields;
use image_fields::tag;
use parts::part::Part;

// The low byte of an address: A16 alone stands in the address, and the detail may be any.
fn low_byte(phase: PhaseFields) -> bool
    ensures { result ≡ (eqb (a16_address (a16_in phase)) phase.address && (ltb phase.count 9 && ltb phase.value (2 ^ phase.count))) }
{
    matches!(phase.address, 0 | 65536) && bits_in(phase, 9)
}

// The high byte: the detail is not used.
fn high_byte(phase: PhaseFields) -> bool
    ensures { result ≡ ((eqb (a16_address (a16_in phase)) phase.address && eqb phase.detail 0) && (ltb phase.count 9 && ltb phase.value (2 ^ phase.count))) }
{
    phase.detail == 0 && low_byte(phase)
}

#[tactic(auto, unfolding(image_fields::specs::I2cPhase::phase_in))]
pub fn takes(part: Part, phase: PhaseFields) -> bool
    ensures { result ≡ (same_phase (fields_of (phase_in phase)) phase && Ranges.phase_in part (phase_in phase)) }
{
    match phase.tag {
        tag::REST | tag::IGNORING => bare(phase),
        tag::WORD => unaddressed(phase) && bits_in(phase, 9),
        tag::HIGH_BYTE => high_byte(phase),
        tag::LOW_BYTE => low_byte(phase),
        tag::I2C_DATA => phase.detail == 0 && phase.address < part.size && bits_in(phase, 9),
        tag::SENDING => sent(phase, part.size, 9),
        _ => false,
    }
}
