// What a rise does that does more than add a bit.
ghost use Rattle.std.specs.Prelude.{◌≡◌, cond, ◌≤◌, ◌<◌, ◌+◌, ◌^◌, length};
ghost use Rattle.parts.specs.Table.{Fit};
ghost use Rattle.serial.specs.Bits.{shifted};
ghost use Rattle.serial.specs.Write.{applied};
ghost use Rattle.selection.specs.Levels.{levels_of};
ghost use Rattle.selection.specs.Phase.{after_rise};
ghost use Rattle.selection.specs.Ranges.{PhaseIn};
ghost use Rattle.spi.specs.Show.{answer_at};
ghost use Rattle.spi.specs.Store.{rise_write};
ghost use Rattle.chip.specs.declared.model.BusState.TheVariants.{SpiOn};
ghost use Rattle.parts.specs.Numbers.{answer_number};
ghost use Rattle.phase_bits.specs.Field.{kept_of, early_of, with_bits, next_bits, next_value};
ghost use Rattle.samples.specs.Bound.{next_before};
ghost use Rattle.samples.specs.Samples.{spi_of};

use chip::model::BusState;
use parts::answer::Answer;
use parts::part::{Bus, Part};
use parts::status::Status;
use selection::levels::Levels;
use selection::phase::Phase;
use spi::sample::Spi;

// The byte that is due where a data byte of WRITE comes in, once a rise does more than add a bit: with its eighth bit, or on a part that
// stores late as it waits.
fn due_byte(part: Part, value: u32, si: bool) -> u8
    requires { (value < 256) × (cond part.late value (shifted value si) < 256) }
    ensures { result ≡ cond part.late value (shifted value si) }
{
    if part.late {
        value as u8
    } else {
        serial::bits::shift_in(value, si) as u8
    }
}

// A counted rise that does more than add a bit: its write is stored, and the phase to be kept given back. `after_rise` and `rise_write` would
// do; but here a data byte that waits needs no phase of its own, and the loop is quicker for it.
pub fn rise(
    part: Part,
    status: Status,
    phase: Phase,
    bits: u8,
    value: u32,
    si: bool,
    memory: &mut [u8],
) -> Phase
    requires { Fit part × PhaseIn part (with_bits phase bits value) × (kept_of phase ≡ phase) × (early_of part phase ≤ bits) × (value < 2 ^ bits) × (length memory.old ≡ part.size) }
    ensures phase { with_bits result (next_bits (with_bits phase bits value)) (next_value (with_bits phase bits value) si) ≡ after_rise part (with_bits phase bits value) si }
    ensures kept { kept_of result ≡ result }
    ensures memory { memory.new ≡ applied (rise_write part status (with_bits phase bits value) si) memory.old }
{
    match phase_bits::field::coming_in(phase) {
        Some(address) => {
            let next = selection::rise::taking(selection::rise::data_after(part, address));
            let byte = due_byte(part, value, si);
            let write = spi::store::permit(part, status, address, byte);
            serial::write::apply(write, memory);
            next
        }
        None => {
            let whole = phase_bits::field::with_bits(phase, bits, value);
            let next = selection::rise::after_rise(part, whole, si);
            phase_bits::field::kept_of(next)
        }
    }
}
