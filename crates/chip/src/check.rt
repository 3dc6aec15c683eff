// Numbers 1, 2 and 3: what is tested of a state and a memory before anything else.
ghost use Rattle.std.specs.Prelude.{◌≡◌, ◌<◌};
ghost use Rattle.parts.specs.Table.{Fit};
ghost use Rattle.chip.specs.Check.{bits_clear, holds_bits, placed_in, model_in, i2c_in, bus_in, part_check, check_of};

use crate::model::{BusState, Model};
use i2c::sample::I2c;
use parts::part::{Bus, PARTS, Part};
use parts::refusal::Refusal;
use parts::status::Status;

// Whether SRWD, BP1 and BP0 are all 0.
pub fn bits_clear(status: Status) -> bool
    ensures { result ≡ bits_clear status }
{
    !status.srwd && !status.bp1 && !status.bp0
}

// Whether the part may hold bits other than 0: a part that saves them always, and under power every SPI part.
fn holds_bits(part: Part, bus: BusState) -> bool
    ensures { result ≡ holds_bits part bus }
{
    match bus {
        BusState::Unpowered => part.saved,
        BusState::SpiOn { .. } | BusState::I2cOn { .. } => part.saved || part.bus == Bus::Spi,
    }
}

// Address pins and saved bits that the part can have.
fn placed_in(part: Part, model: Model) -> bool
    ensures { result ≡ placed_in part model }
{
    model.pins < u32::from(part.pins) && (holds_bits(part, model.bus) || bits_clear(model.status))
}

// Number 1: part, address pins and saved bits.
fn model_in(model: Model) -> bool
    ensures { result ≡ model_in model }
{
    (model.part as usize) < PARTS.len()
        && placed_in(parts::part::part_of(model.part as usize), model)
}

// Number 2: the bus is the part's, WEL is set only on an SPI part under power, and the numbers of the phase are in their ranges. What it
// tests stands as clauses in the crates below: a row has no invariant, since the empty one past the table (`no_part`) does not fit, and a phase
// is in its range only beside its part.
fn bus_in(part: Part, status: Status, bus: BusState) -> bool
    requires { Fit part }
    ensures { result ≡ bus_in part status bus }
{
    match bus {
        BusState::Unpowered => !status.wel,
        BusState::SpiOn { spi } => {
            part.bus == Bus::Spi && selection::range::phase_in(part, spi.phase)
        }
        BusState::I2cOn { i2c } => part.bus == Bus::I2c && !status.wel && i2c_in(part, i2c),
    }
}

fn i2c_in(part: Part, i2c: I2c) -> bool
    ensures { result ≡ i2c_in part i2c }
{
    i2c.buffer.address < part.size && transfer::range::phase_in(part, i2c.phase)
}

// Numbers 2 and 3.
fn check_part(part: Part, model: Model, length: usize) -> Result<(), Refusal>
    requires { Fit part }
    ensures { result ≡ part_check part model length }
{
    if !bus_in(part, model.status, model.bus) {
        return Err(Refusal::StateRange);
    }
    if length != part.size as usize {
        return Err(Refusal::MemoryLength);
    }
    Ok(())
}

// The first of 1, 2 and 3 that holds, with a memory of that length.
// On an image (`call_ends`) another rule: the lengths of result and memory, and no 1, since what is no image is refused with 2.
#[tactic(auto, unfolding(crate::specs::Check::check_of))]
pub fn check(model: Model, length: usize) -> Result<(), Refusal>
    ensures { result ≡ check_of model length }
{
    if !model_in(model) {
        return Err(Refusal::ModelRange);
    }
    check_part(parts::part::part_of(model.part as usize), model, length)
}
