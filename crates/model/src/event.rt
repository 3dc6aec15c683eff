// One event, any bytes on any state and memory.
ghost use Rattle.std.specs.Prelude.{◌≡◌};
ghost use Rattle.events.specs.Reply.{reply_of};
ghost use Rattle.runs.specs.Event.{event_of};

use chip::model::Model;
use events::event::Answered;
use parts::refusal::Refusal;

// The event at the front of bytes: answer, warning flag, next state. It is refused with the first that holds, of 1 to 11 in the order 1, 2,
// 3, 4, 5, 6, 10, 11, 7, 8, 9.
#[tactic(auto, unfolding(runs::specs::Event::event_of))]
pub fn event(model: Model, bytes: &[u8], memory: &mut [u8]) -> Result<Answered, Refusal>
    ensures answered { reply_of model result ≡ (event_of model memory.old bytes.now).result }
    ensures memory { memory.new ≡ (event_of model memory.old bytes.now).memory }
{
    chip::check::check(model, memory.len())?;
    runs::one::checked_event(model, bytes, memory)
}
