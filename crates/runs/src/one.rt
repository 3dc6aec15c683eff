// One event of a state and a memory that passed the tests.
ghost use Rattle.std.specs.Prelude.{◌≡◌};
ghost use Rattle.chip.specs.Check.{Sound};
ghost use Rattle.events.specs.Reply.{reply_of};
ghost use Rattle.runs.specs.Event.{checked_event};

use chip::model::Model;
use events::event::Answered;
use parts::answer::Answer;
use parts::refusal::Refusal;

// Refused with 4 to 11, or taken: a run of one event, whose offset is not used, and whose first flag is at 0 if the event is flagged. Without
// bytes a run is empty, and an event is cut short.
pub fn checked_event(model: Model, bytes: &[u8], memory: &mut [u8]) -> Result<Answered, Refusal>
    requires { Sound model memory.old }
    ensures answered { reply_of model result ≡ (checked_event model memory.old bytes.now).result }
    ensures memory { memory.new ≡ (checked_event model memory.old bytes.now).memory }
{
    if bytes.is_empty() {
        return Err(Refusal::Truncated);
    }
    let mut answers = [2u8; 1];
    let ran = crate::run::replay_checked(model, bytes, 1, memory, &mut answers);
    if let Some(refusal) = ran.refusal {
        return Err(refusal);
    }
    Ok(Answered {
        answer: Answer::of_number(answers[0]),
        flag: ran.flag == 0,
        model: ran.model,
    })
}
