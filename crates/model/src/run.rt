// Runs of a trace.
ghost use Rattle.std.specs.Prelude.{◌≡◌};
ghost use Rattle.std.proofs.lemmas.List.Edits.{sets};
ghost use Rattle.runs.specs.Figures.{figures_of};
ghost use Rattle.runs.specs.Run.{ran_of, run_of};

use chip::model::Model;
use runs::run::Ran;

// A run that also gives back answers: that of the i-th accepted event goes to answers[i], while there is room.
#[tactic(auto, unfolding(runs::specs::Run::run_of))]
pub fn replay(
    model: Model,
    trace: &[u8],
    quota: usize,
    memory: &mut [u8],
    answers: &mut [u8],
) -> Ran
    ensures ran { figures_of result ≡ ran_of (run_of quota trace.now model memory.old) }
    ensures memory { memory.new ≡ (run_of quota trace.now model memory.old).memory }
    ensures answers { answers.new ≡ sets answers.old 0 (run_of quota trace.now model memory.old).answers }
{
    match chip::check::check(model, memory.len()) {
        Ok(()) => runs::run::replay_checked(model, trace, quota, memory, answers),
        Err(refusal) => runs::run::refused(refusal, model, trace.len()),
    }
}

// At most quota events from the front of a trace.
pub fn run(model: Model, trace: &[u8], quota: usize, memory: &mut [u8]) -> Ran
    ensures ran { figures_of result ≡ ran_of (run_of quota trace.now model memory.old) }
    ensures memory { memory.new ≡ (run_of quota trace.now model memory.old).memory }
{
    let mut answers = [0u8; 1];
    replay(model, trace, quota, memory, &mut answers)
}
