// What refuses a selection as bytes on a state and memory that passed: 4, 12 and 13.
ghost use Rattle.std.specs.Prelude.{◌≡◌, ℕ, ◌<◌, Bool, true, List, length, IfOk};
ghost use Rattle.chip.specs.declared.model.BusState.TheVariants as BusState;
ghost use Rattle.chip.specs.Check.{Sound};
ghost use Rattle.byte_path.specs.Select.{part_select};
ghost use Rattle.selects.specs.Selected.{selected_of, told_of, select_by};

use crate::taken::Selected;
use chip::model::{BusState, Model};
use parts::part::Bus;
use parts::refusal::Refusal;
use spi::sample::Spi;

// The bus of a part that takes a selection of these lengths, or why it takes none: 4 on an I2C part, 12 without power or if CS# was not 1 in
// the last sample, 13 if the lengths differ.
fn deselected(model: Model, input_len: usize, output_len: usize) -> Result<Spi, Refusal>
    requires { model.part < 5 }
    ensures bus { IfOk result (λ spi. (model.bus ≡ BusState.SpiOn spi) × (spi.last.cs ≡ true) × (output_len ≡ input_len)) }
    ensures select { (wp : Bool) (input output m : List ℕ) → length input ≡ input_len → length output ≡ output_len → part_select wp model input output m ≡ select_by wp model input output m result }
{
    let part = parts::part::part_of(model.part as usize);
    if part.bus != Bus::Spi {
        return Err(Refusal::UnknownKind);
    }
    // an I2C bus is impossible: the part is on SPI
    let BusState::SpiOn { spi } = model.bus else {
        return Err(Refusal::NotDeselected);
    };
    if !spi.last.cs {
        return Err(Refusal::NotDeselected);
    }
    if output_len != input_len {
        return Err(Refusal::BufferLength);
    }
    Ok(spi)
}

// A selection on a state and memory that passed.
#[tactic(auto, using(chip::proofs::CheckLaws::sound_in))]
pub fn select_on_part(
    model: Model,
    wp: bool,
    input: &[u8],
    output: &mut [u8],
    memory: &mut [u8],
) -> Result<Selected, Refusal>
    requires { Sound model memory.old }
    ensures selected { told_of model result ≡ selected_of (part_select wp model input.now output.old memory.old) }
    ensures memory { memory.new ≡ (part_select wp model input.now output.old memory.old).memory }
    ensures output { output.new ≡ (part_select wp model input.now output.old memory.old).output }
{
    let spi = deselected(model, input.len(), output.len())?;
    Ok(crate::taken::select_bytes(model, spi, wp, input, output, memory))
}
