// What the loop over consecutive samples asks of the state of a bus.
ghost use Rattle.std.specs.Prelude.{◌≡◌, ℕ, Bool, List};
ghost use Rattle.parts.specs.declared.part.Part.{Part};
ghost use Rattle.parts.specs.Numbers.{answer_number};
ghost use Rattle.trace.specs.declared.event.Event.TheVariants.{Sample};
ghost use Rattle.trace.specs.Sample.{stays_first};
ghost use Rattle.chip.specs.declared.model.Model.{Model};
ghost use Rattle.chip.specs.Check.{Sound};
ghost use Rattle.events.specs.Event.{advance_of};
ghost use Rattle.samples.specs.Kept.{present, LastOn, left_by};
ghost use Rattle.samples.specs.Samples.{stays_on};

use chip::model::Model;
use parts::answer::Answer;
use parts::part::Part;

// The state of a part under power as the loop keeps it: in the fields that a sample changes one by one, since a loop that hands the state
// of the bus from sample to sample as a whole is slower.
pub trait Kept: Copy {
    // The state that it stands for.
    ghost state: { Self → Model };

    // What ties it to the row of its part.
    ghost fits: { Part → Self → Type 0 };

    // Whether a sample is flagged.
    ghost flag: { Self → ℕ → Bool };

    ghost limit: { ℕ };

    // One past the largest sample of the bus.
    fn limit() -> u8
        ensures { result ≡ limit };

    // A sample with the levels of the one before.
    fn last(&self) -> u8
        ensures { LastOn (state self.now).bus result };

    fn present(&self) -> Answer
        ensures { answer_number result ≡ present (state self.now).bus };

    // Asked before the sample is taken: as the answer of `take` the flag cost a sample on I2C an eighth more instructions.
    fn flagged(&self, sample: u8) -> bool
        ensures { result ≡ flag self.now sample };

    // Takes a sample.
    fn take(&mut self, part: Part, sample: u8, memory: &mut [u8])
        requires { fits part self.old × Sound (state self.old) memory.old }
        ensures fits { fits part self.new }
        ensures taken { advance_of (state self.old) memory.old (Sample sample) ≡ left_by (flag self.old sample) (state self.new) memory.new };

    fn model(&self) -> Model
        requires { (part : Part) × fits part self.now }
        ensures { result ≡ state self.now };

    // Which event comes next is told by the limit and the present answer.
    ghost stays: { (b : Self) (u : List ℕ) → stays_on (state b).bus u ≡ stays_first limit (present (state b).bus) u };
}
