// One selection as bytes, on any state, bytes, buffer and memory.
ghost use Rattle.std.specs.Prelude.{◌≡◌};
ghost use Rattle.byte_path.specs.Select.{select_of};
ghost use Rattle.selects.specs.Selected.{selected_of, told_of};

use chip::model::Model;
use parts::refusal::Refusal;
use selects::taken::Selected;

// A selection of an SPI part that is not selected: CS# falls with SCK low, the bytes go in, most significant bit first, and CS# rises,
// with HOLD# 1 and this WP#. The first of 1, 2, 3, 4, 12 and 13 that holds refuses it.
#[tactic(auto, unfolding(byte_path::specs::Select::select_of))]
pub fn select(
    model: Model,
    wp: bool,
    input: &[u8],
    output: &mut [u8],
    memory: &mut [u8],
) -> Result<Selected, Refusal>
    ensures selected { told_of model result ≡ selected_of (select_of wp model input.now output.old memory.old) }
    ensures memory { memory.new ≡ (select_of wp model input.now output.old memory.old).memory }
    ensures output { output.new ≡ (select_of wp model input.now output.old memory.old).output }
{
    chip::check::check(model, memory.len())?;
    selects::select::select_on_part(model, wp, input, output, memory)
}
