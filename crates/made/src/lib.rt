// A making and a run in one.
#![tactic(auto)]

ghost use Rattle.std.specs.Prelude.{◌≡◌};
ghost use Rattle.std.proofs.lemmas.List.Edits.{sets};
ghost use Rattle.runs.specs.Figures.{figures_of};
ghost use Rattle.runs.specs.Run.{ran_of};
ghost use Rattle.made.specs.MadeRun.{made_run};

use runs::run::Ran;

// If the making is refused nothing is run: its refusal and the model that comes with it come back, with count and offset 0 and no flag.
#[tactic(auto, unfolding(crate::specs::MadeRun::made_run))]
pub fn replay_made(
    part: u32,
    pins: u32,
    bits: u32,
    trace: &[u8],
    quota: usize,
    memory: &mut [u8],
    answers: &mut [u8],
) -> Ran
    ensures ran { figures_of result ≡ ran_of (made_run part pins bits quota trace.now memory.old) }
    ensures memory { memory.new ≡ (made_run part pins bits quota trace.now memory.old).memory }
    ensures answers { answers.new ≡ sets answers.old 0 (made_run part pins bits quota trace.now memory.old).answers }
{
    let made = model::make::make(part, pins, bits);
    match made.refusal {
        None => model::run::replay(made.model, trace, quota, memory, answers),
        Some(refusal) => runs::run::refused(refusal, made.model, trace.len()),
    }
}
