// A sample of an I2C part under power.
ghost use Rattle.std.specs.Prelude.{◌≡◌, ◌<◌, length};
ghost use Rattle.parts.specs.Numbers.{answer_number};
ghost use Rattle.parts.specs.Table.{part_of};
ghost use Rattle.transfer.specs.declared.phase.Field.TheVariants.{Word};
ghost use Rattle.transfer.specs.declared.phase.Phase.TheVariants.{Taking};
ghost use Rattle.transfer.specs.Ranges.{PhaseIn};
ghost use Rattle.i2c.specs.Pull.{pulls_after};
ghost use Rattle.i2c.specs.Sample.{answer_of};
ghost use Rattle.chip.specs.Check.{Sound};
ghost use Rattle.image_fields.specs.Fields.{only_tag};
ghost use Rattle.image_fields.specs.I2cPhase as I2cPhase;
ghost use Rattle.image_fields.specs.State.{state_in, ReadBack};
ghost use Rattle.image_sample.specs.Bits.{one_more};
ghost use Rattle.image_sample.specs.Moved.{i2c_moved, i2c_done};
ghost use Rattle.image_sample.specs.Stepped.{Gives};

use crate::stepped::Stepped;
use image_fields::fields::{Fields, PhaseFields};
use image_fields::tag;
use parts::answer::Answer;
use parts::part::Part;
use transfer::edge::Edge;
use transfer::levels::Levels;
use transfer::phase::{Field, Phase};

// The answer is what the part drives; on SPI it is at the levels now.
fn done(fields: Fields, flag: bool) -> Stepped
    ensures { result ≡ i2c_done fields flag }
{
    Stepped {
        fields,
        answer: fields.driven,
        flag,
    }
}

// START: the part lets go of the line and takes in a word. STOP and, on SPI, a fall of CS# say the same of another phase, and `rise` and
// `quiet` stand there too: with one function for both buses an event by itself took a sixth more instructions.
fn start(fields: Fields, sample: u8) -> Fields
    ensures { result ≡ i2c_moved fields sample 2 (I2cPhase.fields_of (Taking Word 0 0)) }
{
    Fields {
        last: sample,
        driven: Answer::HighZ.number(),
        phase: PhaseFields::from(transfer::rise::taking(Field::Word)),
        ..fields
    }
}

// STOP: the part lets go of the line and rests.
fn stop(fields: Fields, sample: u8) -> Fields
    ensures { result ≡ i2c_moved fields sample 2 (only_tag 0) }
{
    Fields {
        last: sample,
        driven: Answer::HighZ.number(),
        phase: PhaseFields::only_tag(tag::REST),
        ..fields
    }
}

// A rise before the ninth.
#[inline(always)]
fn rise(fields: Fields, sample: u8, line: bool) -> Fields
    requires { (fields.phase.count < 255) × (fields.phase.value < 2147483648) }
    ensures { result ≡ i2c_moved fields sample fields.driven (one_more fields.phase line) }
{
    Fields {
        last: sample,
        phase: crate::bits::one_more(fields.phase, line),
        ..fields
    }
}

// A fall of SCL sets the pull, by pins and phase; on SPI one shows a bit.
#[inline(always)]
fn fall(part: Part, fields: Fields, sample: u8, memory: &[u8]) -> Fields
    requires { (fields.pins < 8) × (length memory.now ≡ part.size) × PhaseIn part (I2cPhase.phase_in fields.phase) }
    ensures { result ≡ i2c_moved fields sample (answer_number (answer_of (pulls_after part fields.pins memory.now (I2cPhase.phase_in fields.phase)))) fields.phase }
{
    let phase = Phase::from(fields.phase);
    let pulling = i2c::pull::pulls_after(part, fields.pins, memory, phase);
    Fields {
        last: sample,
        driven: i2c::sample::answer_of(pulling).number(),
        ..fields
    }
}

// No edge.
fn quiet(fields: Fields, sample: u8) -> Fields
    ensures { result ≡ i2c_moved fields sample fields.driven fields.phase }
{
    Fields {
        last: sample,
        ..fields
    }
}

// The ninth rise is taken elsewhere, since it may store.
#[inline(always)]
pub fn i2c_sample(part: Part, fields: Fields, sample: u8, memory: &[u8]) -> Option<Stepped>
    requires { ReadBack fields × (fields.power ≡ 2) × (sample < 8) × (part ≡ part_of fields.part) × Sound (state_in fields) memory.now }
    ensures { Gives fields memory.now sample result }
{
    let before = Levels::from(fields.last);
    let levels = Levels::from(sample);
    let flag = transfer::flag::flag_of(Phase::from(fields.phase), before, levels);
    match transfer::edge::edge_of(fields.driven == 0, before, levels) {
        Edge::Start => Some(done(start(fields, sample), flag)),
        Edge::Stop => Some(done(stop(fields, sample), flag)),
        Edge::Rise { line } if fields.phase.count < 8 => {
            Some(done(rise(fields, sample, line), flag))
        }
        Edge::Rise { .. } => None,
        Edge::Fall => Some(done(fall(part, fields, sample, memory), flag)),
        Edge::Quiet => Some(done(quiet(fields, sample), flag)),
    }
}
