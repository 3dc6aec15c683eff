// A run of a state and a memory that passed the tests.
ghost use Rattle.std.specs.Prelude.{◌≡◌};
ghost use Rattle.std.proofs.lemmas.List.Edits.{sets};
ghost use Rattle.chip.specs.Check.{Sound};
ghost use Rattle.parts.specs.Numbers.{refusal_number, number_of};
ghost use Rattle.runs.specs.Figures.{figures_of};
ghost use Rattle.runs.specs.Run.{ran, ran_of, loop_of};

use chip::model::Model;
use parts::refusal::Refusal;
use samples::progress::Progress;

// Why the run stopped, if an event is refused, the state, how many events are accepted, and two offsets. The first is that of the first byte
// of the bad field with 6, 10 and 11, else how many bytes these events take; the second is that of the first of them that is flagged, or the
// length of the trace: no Option, since definitions and C count it so, and each edge would make it a number again.
#[derive(Clone, Copy, Debug, PartialEq, Eq)]
pub struct Ran {
    pub refusal: Option<Refusal>,
    pub model: Model,
    pub count: usize,
    pub offset: usize,
    pub flag: usize,
}

// A run that ends where it has come to.
fn ended(refusal: Option<Refusal>, reached: Progress) -> Ran
    ensures { figures_of result ≡ ran (number_of refusal) reached.model reached.count reached.offset reached.flag }
{
    let Progress {
        model,
        count,
        offset,
        flag,
    } = reached;
    Ran {
        refusal,
        model,
        count,
        offset,
        flag,
    }
}

// A run that is refused before its first event, of a trace of this length.
pub fn refused(refusal: Refusal, model: Model, length: usize) -> Ran
    ensures { figures_of result ≡ ran (refusal_number refusal) model 0 0 length }
{
    Ran {
        refusal: Some(refusal),
        model,
        count: 0,
        offset: 0,
        flag: length,
    }
}

// At most quota events from the front of a trace; the answer of the i-th accepted event goes to answers[i], while there is room.
pub fn replay_checked(
    model: Model,
    trace: &[u8],
    quota: usize,
    memory: &mut [u8],
    answers: &mut [u8],
) -> Ran
    requires { Sound model memory.old }
    ensures ran { figures_of result ≡ ran_of (loop_of quota trace.now model memory.old) }
    ensures memory { memory.new ≡ (loop_of quota trace.now model memory.old).memory }
    ensures answers { answers.new ≡ sets answers.old 0 (loop_of quota trace.now model memory.old).answers }
{
    // the row stands beside the state, as `one_other` and `other_event` promise for them; one value of both would be built anew with each event
    let part = parts::part::part_of(model.part as usize);
    let mut at = Progress {
        model,
        count: 0,
        offset: 0,
        flag: trace.len(),
    };
    // no `for`: the run keeps several numbers, goes on by steps of different length, and stops where an event is refused
    while at.count < quota {
        at = steps::consecutive::samples(part, trace, quota, at, &mut *memory, &mut *answers);
        if quota <= at.count || trace.len() <= at.offset {
            return ended(None, at);
        }
        match steps::other::one_other(part, at.model, trace, at.count, at.offset, &mut *answers) {
            Ok(other) => {
                at = Progress {
                    model: other.model,
                    count: at.count + 1,
                    offset: other.offset,
                    ..at
                };
            }
            Err((refusal, offset)) => return ended(Some(refusal), Progress { offset, ..at }),
        }
    }
    ended(None, at)
}
