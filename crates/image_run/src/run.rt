// A run on an image and a memory that passed.
ghost use Rattle.std.specs.Prelude.{◌≡◌, true};
ghost use Rattle.std.proofs.lemmas.List.Edits.{sets};
ghost use Rattle.chip.specs.Check.{Sound};
ghost use Rattle.runs.specs.Figures.{figures_of};
ghost use Rattle.runs.specs.Run.{ran_of, loop_of};
ghost use Rattle.image.specs.Taken.{image_of, state_of, taken};

use runs::run::Ran;

// The image of the state that the run reached is left in the place of the first one.
pub fn run_on(
    state: &mut [u8],
    trace: &[u8],
    quota: usize,
    memory: &mut [u8],
    answers: &mut [u8],
) -> Ran
    requires { (taken state.old ≡ true) × Sound (state_of state.old) memory.old }
    ensures ran { figures_of result ≡ ran_of (loop_of quota trace.now (state_of state.old) memory.old) }
    ensures state { state.new ≡ image_of (loop_of quota trace.now (state_of state.old) memory.old).model }
    ensures memory { memory.new ≡ (loop_of quota trace.now (state_of state.old) memory.old).memory }
    ensures answers { answers.new ≡ sets answers.old 0 (loop_of quota trace.now (state_of state.old) memory.old).answers }
{
    let model = image::taken::state_of(state);
    let ran = runs::run::replay_checked(model, trace, quota, memory, answers);
    image::taken::put_image(state, ran.model);
    ran
}
