// Whether fields are those of a phase of an SPI part, with its numbers in range.
ghost use Rattle.std.specs.Prelude.{◌≡◌, ◌&&◌, eqb, ltb, leb};
ghost use Rattle.parts.specs.Table.{Fit};
ghost use Rattle.selection.specs.Ranges as Ranges;
ghost use Rattle.image_fields.specs.Fields.{same_phase};
ghost use Rattle.image_fields.specs.SpiPhase.{fields_of, phase_in};

use crate::phase::{bare, bits_in, sent, unaddressed};
use image_fields::fields::PhaseFields;
use image_fields::tag;
use parts::part::Part;

// The status register is shown.
fn register(phase: PhaseFields) -> bool
    ensures { result ≡ ((eqb phase.value 0 && (eqb phase.address 0 && eqb phase.detail 0)) && ltb phase.count 8) }
{
    phase.value == 0 && phase.address == 0 && phase.detail == 0 && phase.count < 8
}

// One of the identity bytes is shown, or they are over.
fn identity(phase: PhaseFields) -> bool
    ensures { result ≡ ((eqb phase.value 0 && eqb phase.address 0) && (leb phase.detail 3 && ltb phase.count 8)) }
{
    phase.value == 0 && phase.address == 0 && phase.detail <= 3 && phase.count < 8
}

// WRSR has its byte, which may be any.
fn status_byte(phase: PhaseFields) -> bool
    ensures { result ≡ (eqb phase.count 0 && (eqb phase.value 0 && eqb phase.address 0)) }
{
    phase.count == 0 && phase.value == 0 && phase.address == 0
}

// A data byte waits, which may be any, on a part that stores late.
fn pending(part: Part, phase: PhaseFields) -> bool
    ensures { result ≡ ((eqb phase.count 0 && eqb phase.value 0) && (part.late && ltb phase.address part.size)) }
{
    phase.count == 0 && phase.value == 0 && part.late && phase.address < part.size
}

#[tactic(auto, unfolding(image_fields::specs::SpiPhase::phase_in))]
pub fn takes(part: Part, phase: PhaseFields) -> bool
    requires { Fit part }
    ensures { result ≡ (same_phase (fields_of (phase_in phase)) phase && Ranges.phase_in part (phase_in phase)) }
{
    match phase.tag {
        tag::REST | tag::IGNORING | tag::SET_LATCH | tag::CLEAR_LATCH | tag::FALL_ASLEEP => {
            bare(phase)
        }
        tag::OPCODE | tag::STATUS_BYTE => unaddressed(phase) && bits_in(phase, 8),
        tag::READ_ADDRESS | tag::FAST_ADDRESS | tag::WRITE_ADDRESS => {
            unaddressed(phase) && bits_in(phase, part.width)
        }
        tag::DUMMY => phase.detail == 0 && phase.address < part.size && bits_in(phase, 8),
        // its detail is 1 if a byte was whole before it, else 0
        tag::DATA => phase.detail < 2 && phase.address < part.size && bits_in(phase, 8),
        tag::MEMORY => sent(phase, part.size, 8),
        tag::REGISTER => register(phase),
        tag::IDENTITY => identity(phase),
        tag::WRITE_STATUS => status_byte(phase),
        tag::PENDING => pending(part, phase),
        _ => false,
    }
}
