// As many samples and expected answers that hold as come one after the other, on either bus.
ghost use Rattle.std.specs.Prelude.{◌≡◌, ◌≤◌, ◌-◌, length, drop};
ghost use Rattle.std.proofs.lemmas.List.Edits.{sets};
ghost use Rattle.parts.specs.Table.{part_of};
ghost use Rattle.chip.specs.Check.{Sound};
ghost use Rattle.samples.specs.Samples.{samples_of, progress_by};

use chip::model::BusState;
use parts::part::Part;
use samples::progress::Progress;

// From where the run has come, within the quota. Without power there are none.
pub fn samples(
    part: Part,
    trace: &[u8],
    quota: usize,
    from: Progress,
    memory: &mut [u8],
    answers: &mut [u8],
) -> Progress
    requires { (part ≡ part_of from.model.part) × Sound from.model memory.old × (from.offset ≤ length trace.now) }
    ensures progress { result ≡ progress_by (length trace.now) from.flag from.count from.offset (samples_of (quota - from.count) (drop from.offset trace.now) from.model memory.old) }
    ensures memory { memory.new ≡ (samples_of (quota - from.count) (drop from.offset trace.now) from.model memory.old).memory }
    ensures answers { answers.new ≡ sets answers.old from.count (samples_of (quota - from.count) (drop from.offset trace.now) from.model memory.old).answers }
{
    match from.model.bus {
        BusState::Unpowered => from,
        BusState::SpiOn { spi } => {
            spi_samples::consecutive::spi_samples(part, spi, trace, quota, from, memory, answers)
        }
        BusState::I2cOn { i2c } => {
            i2c_samples::consecutive::i2c_samples(part, i2c, trace, quota, from, memory, answers)
        }
    }
}
