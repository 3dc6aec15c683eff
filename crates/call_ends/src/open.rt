// What is tested of a state, a result and a memory before anything else.
ghost use Rattle.std.specs.Prelude.{◌≡◌};
ghost use Rattle.std.specs.Result.{result_err};
ghost use Rattle.parts.specs.Numbers.{number_of};
ghost use Rattle.calls.specs.Calls.{open_number};

use parts::refusal::Refusal;

// 2, then 3, by the lengths of result and memory.
#[tactic(auto, using(image::proofs::TakenLaws::taken_long, image::proofs::TakenLaws::known_part), unfolding(calls::specs::Calls::open_number))]
pub fn check(state: &[u8], res: usize, memory: usize) -> Result<(), Refusal>
    ensures { number_of (result_err result) ≡ open_number state.now res memory }
{
    if res != 32 || !image_check::taken::is_taken(state) {
        return Err(Refusal::StateRange);
    }
    let part = parts::part::part_of(usize::from(state[0]));
    if memory != part.size as usize {
        return Err(Refusal::MemoryLength);
    }
    Ok(())
}
