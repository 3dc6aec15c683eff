// One event of a run that is no sample under power.
ghost use Rattle.std.specs.Prelude.{◌≡◌, ℕ, ◌+◌, ◌≤◌, ◌<◌, List, length, drop};
ghost use Rattle.parts.specs.Table.{part_of};
ghost use Rattle.trace.specs.Read.{read_of};
ghost use Rattle.steps.specs.Other.{standing_of, other_of, other_noted, ReadOtherThanSample};

use chip::model::Model;
use parts::part::Part;
use trace::read::Fault;

// State and offset after an accepted event.
#[derive(Clone, Copy, Debug, PartialEq, Eq)]
pub struct Other {
    pub model: Model,
    pub offset: usize,
}

// The event at offset, which is no sample under power, and its answer noted at count if it is accepted: the same on any memory m. The
// reader's refusal leaves with its offset, that of the fault, which is the bad field's first byte or the kind byte; another is at the kind
// byte.
pub fn one_other(
    part: Part,
    model: Model,
    trace: &[u8],
    count: usize,
    offset: usize,
    answers: &mut [u8],
) -> Result<Other, Fault>
    requires { (part ≡ part_of model.part) × (offset ≤ length trace.now) × ReadOtherThanSample (read_of part (drop offset trace.now)) model.bus }
    ensures other { (m : List ℕ) → standing_of model result ≡ other_of (read_of part (drop offset trace.now)) model m offset }
    ensures answers { (m : List ℕ) → answers.new ≡ other_noted (read_of part (drop offset trace.now)) model m count answers.old }
{
    let read = trace::read::read_event(part, &trace[offset..]);
    let Ok((event, taken)) = read else {
        let (refusal, place) = read.unwrap_err();
        return Err((refusal, offset + place));
    };
    let past = offset + taken;
    let given = events::event::other_event(part, model, event);
    let answered = given.map_err(|refusal| (refusal, offset))?;
    samples::note::note_answer(answers, count, answered.answer);
    Ok(Other {
        model: answered.model,
        offset: past,
    })
}
