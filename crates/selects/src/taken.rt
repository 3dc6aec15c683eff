// One SPI selection as bytes: head, what comes back, what is stored, and CS# rising.
ghost use Rattle.std.specs.Prelude.{◌≡◌, true, false, length};
ghost use Rattle.parts.specs.declared.answer.Answer.TheVariants as Answer;
ghost use Rattle.selection.specs.declared.phase.Phase.TheVariants as Phase;
ghost use Rattle.spi_status.specs.Deselect.{status_after, asleep_after};
ghost use Rattle.chip.specs.declared.model.BusState.TheVariants as BusState;
ghost use Rattle.chip.specs.Check.{Sound};
ghost use Rattle.byte_path.specs.PinPath.{last_si, bytes_of, first_driven, driven_count, selection_of};
ghost use Rattle.byte_rest.specs.Rest.{ended_model};

use byte_path::head::Head;
use chip::model::{BusState, Model};
use parts::answer::Answer;
use parts::status::Status;
use selection::levels::Levels;
use selection::phase::Phase;
use spi::sample::Spi;

// The next state, the index of the first driven byte and how many are driven.
#[derive(Clone, Copy, Debug, PartialEq, Eq)]
pub struct Selected {
    pub model: Model,
    // the input's length if none is driven, as `first_driven` and C count it: an Option would be made this number again at each edge
    pub first: usize,
    pub count: usize,
}

// SI at the last bit, 0 if there is none.
#[tactic(auto, using(crate::proofs::SelectLaws::last_bit_lem, crate::proofs::SelectLaws::no_bit))]
fn last_si(input: &[u8]) -> bool
    ensures { result ≡ last_si false input.now }
{
    input.last().is_some_and(|byte| byte % 2 == 1)
}

// The state after CS# has risen in this phase.
fn risen(model: Model, wp: bool, asleep: bool, phase: Phase, si: bool) -> Model
    ensures { result ≡ ended_model model wp asleep phase si }
{
    let status = spi_status::deselect::status_after(model.status, wp, phase);
    let last = Levels {
        cs: true,
        sck: false,
        si,
        wp,
        hold: true,
    };
    let spi = Spi {
        last,
        asleep: spi_status::deselect::asleep_after(asleep, phase),
        shown: Answer::HighZ,
        phase: Phase::Rest,
    };
    chip::model::with_bus(model, status, BusState::SpiOn { spi })
}

// A selection of an SPI part under power whose CS# was 1.
pub fn select_bytes(
    model: Model,
    spi: Spi,
    wp: bool,
    input: &[u8],
    output: &mut [u8],
    memory: &mut [u8],
) -> Selected
    requires { (model.bus ≡ BusState.SpiOn spi) × (spi.last.cs ≡ true) × Sound model memory.old × (length output.old ≡ length input.now) }
    ensures model { result.model ≡ (selection_of wp model memory.old input.now).model }
    ensures memory { memory.new ≡ (selection_of wp model memory.old input.now).memory }
    ensures output { output.new ≡ bytes_of (selection_of wp model memory.old input.now).back }
    ensures first { result.first ≡ first_driven (selection_of wp model memory.old input.now).back }
    ensures count { result.count ≡ driven_count (selection_of wp model memory.old input.now).back }
{
    let part = parts::part::part_of(model.part as usize);
    let status = model.status;
    let Head { phase, at } = byte_path::head::head_of(
        part,
        spi::sample::select(spi.asleep),
        input,
        output,
    );
    let count = byte_rest::data::show(part, status, phase, memory, &mut output[at..]);
    let first = if count == 0 { input.len() } else { at };
    byte_rest::data::store(part, status, phase, &input[at..], memory);
    let end = byte_rest::data::end_phase(phase, at < input.len());
    Selected {
        model: risen(model, wp, spi.asleep, end, last_si(input)),
        first,
        count,
    }
}
