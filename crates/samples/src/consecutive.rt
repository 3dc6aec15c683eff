// Consecutive samples of a part under power, with expected answers that hold among them: one loop for either bus.
ghost use Rattle.std.specs.Prelude.{◌≡◌, ◌≤◌, ◌<◌, ◌+◌, ◌-◌, length, drop};
ghost use Rattle.std.proofs.lemmas.List.Edits.{sets};
ghost use Rattle.chip.specs.Check.{Sound};
ghost use Rattle.samples.specs.Bound.{next_before};
ghost use Rattle.samples.specs.Kept.{present};
ghost use Rattle.samples.specs.Samples.{samples_of, progress_by};

use crate::kept::Kept;
use crate::progress::Progress;
use parts::part::Part;

// Whether offset lies before the end, and there is a sample below the limit, or the present answer is expected. As a call of its own the loop
// is slower, and so it is where the present answer is asked for before the end: then it is worked out at each sample, noted or not.
#[inline(always)]
fn next_is<B: Kept>(bus: B, trace: &[u8], end: usize, offset: usize) -> bool
    requires { offset < end → offset + 2 ≤ length trace.now }
    ensures { result ≡ next_before B.limit (present (B.state bus).bus) end offset trace.now }
{
    offset < end && trace::sample::stays_at(trace, offset, B::limit(), bus.present().number())
}

// As many of these events as come one after the other from where the run has come, within the quota.
pub fn consecutive<B: Kept>(
    part: Part,
    bus: B,
    trace: &[u8],
    quota: usize,
    from: Progress,
    memory: &mut [u8],
    answers: &mut [u8],
) -> Progress
    requires { B.fits part bus × (B.state bus ≡ from.model) × Sound from.model memory.old × (from.offset ≤ length trace.now) }
    ensures progress { result ≡ progress_by (length trace.now) from.flag from.count from.offset (samples_of (quota - from.count) (drop from.offset trace.now) from.model memory.old) }
    ensures memory { memory.new ≡ (samples_of (quota - from.count) (drop from.offset trace.now) from.model memory.old).memory }
    ensures answers { answers.new ≡ sets answers.old from.count (samples_of (quota - from.count) (drop from.offset trace.now) from.model memory.old).answers }
{
    let mut bus = bus;
    let end = crate::progress::latest(trace.len(), quota, from.count, from.offset);
    let mut count = from.count;
    let mut offset = from.offset;
    let mut flag = from.flag;
    // no `for`: the loop keeps several numbers besides the bus, and stops where the next event is no sample
    while next_is(bus, trace, end, offset) {
        let sample = crate::progress::first_sample(trace, offset, bus.last());
        let flagged = bus.flagged(sample);
        flag = crate::progress::flag_at(trace.len(), flag, offset, flagged);
        bus.take(part, sample, memory);
        crate::note::note_answer(answers, count, bus.present());
        count += 1;
        offset += 2;
    }
    Progress {
        model: bus.model(),
        count,
        offset,
        flag,
    }
}
