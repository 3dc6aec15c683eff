// One event on an image and a memory that passed.
ghost use Rattle.std.specs.Prelude.{◌≡◌, true};
ghost use Rattle.chip.specs.Check.{Sound};
ghost use Rattle.runs.specs.Event.{event_of};
ghost use Rattle.image.specs.Taken.{image_of, state_of, taken};
ghost use Rattle.image_run.specs.Told.{told_by, told_of};

use parts::answer::Answer;
use parts::refusal::Refusal;

// What an accepted event gives besides state and memory: its answer and its warning flag.
#[derive(Clone, Copy, Debug, PartialEq, Eq)]
pub struct Told {
    pub answer: Answer,
    pub flag: bool,
}

// One event on the state that the image reads as. A refused one leaves the image as it was. `inline(never)` keeps it out of `event_on`: within
// it a sample on the fields took more instructions.
#[inline(never)]
fn on_state(state: &mut [u8], event: &[u8], memory: &mut [u8]) -> Result<Told, Refusal>
    requires { (taken state.old ≡ true) × Sound (state_of state.old) memory.old }
    ensures told { told_of result ≡ told_by (event_of (state_of state.old) memory.old event.now) }
    ensures state { state.new ≡ image_of (event_of (state_of state.old) memory.old event.now).result.model }
    ensures memory { memory.new ≡ (event_of (state_of state.old) memory.old event.now).memory }
{
    // asked here too, before the state is made: an event without bytes is refused in half the instructions
    if event.is_empty() {
        return Err(Refusal::Truncated);
    }
    let model = image::taken::state_of(state);
    let answered = runs::one::checked_event(model, event, memory)?;
    image::taken::put_image(state, answered.model);
    Ok(Told {
        answer: answered.answer,
        flag: answered.flag,
    })
}

// A sample that completes no field or byte and an expected answer that holds are taken on the fields of the image, anything else on its state.
pub fn event_on(state: &mut [u8], event: &[u8], memory: &mut [u8]) -> Result<Told, Refusal>
    requires { (taken state.old ≡ true) × Sound (state_of state.old) memory.old }
    ensures told { told_of result ≡ told_by (event_of (state_of state.old) memory.old event.now) }
    ensures state { state.new ≡ image_of (event_of (state_of state.old) memory.old event.now).result.model }
    ensures memory { memory.new ≡ (event_of (state_of state.old) memory.old event.now).memory }
{
    if let Some(stepped) = crate::fields::on_fields(state, event, memory) {
        image::layout::put_fields(state, stepped.fields);
        return Ok(Told {
            answer: Answer::of_number(stepped.answer),
            flag: stepped.flag,
        });
    }
    on_state(state, event, memory)
}
