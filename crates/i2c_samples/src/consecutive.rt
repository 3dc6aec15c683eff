// Consecutive samples of an I2C part, with expected answers that hold among them.
ghost use Rattle.std.specs.Prelude.{◌≡◌, ◌≤◌, ◌-◌, length, drop};
ghost use Rattle.std.proofs.lemmas.List.Edits.{sets};
ghost use Rattle.parts.specs.Table.{part_of};
ghost use Rattle.chip.specs.Check.{Sound};
ghost use Rattle.chip.specs.declared.model.BusState.TheVariants.{I2cOn};
ghost use Rattle.samples.specs.Samples.{samples_of, progress_by};

use i2c::sample::I2c;
use parts::part::Part;
use samples::progress::Progress;

// As many of these events as come one after the other from where the run has come, within the quota.
pub fn i2c_samples(
    part: Part,
    i2c: I2c,
    trace: &[u8],
    quota: usize,
    from: Progress,
    memory: &mut [u8],
    answers: &mut [u8],
) -> Progress
    requires { (part ≡ part_of from.model.part) × (from.model.bus ≡ I2cOn i2c) × Sound from.model memory.old × (from.offset ≤ length trace.now) }
    ensures progress { result ≡ progress_by (length trace.now) from.flag from.count from.offset (samples_of (quota - from.count) (drop from.offset trace.now) from.model memory.old) }
    ensures memory { memory.new ≡ (samples_of (quota - from.count) (drop from.offset trace.now) from.model memory.old).memory }
    ensures answers { answers.new ≡ sets answers.old from.count (samples_of (quota - from.count) (drop from.offset trace.now) from.model memory.old).answers }
{
    let bus = crate::bus::kept(part, from.model, i2c);
    samples::consecutive::consecutive(part, bus, trace, quota, from, memory, answers)
}
