// A sample of an SPI part under power.
ghost use Rattle.std.specs.Prelude.{◌≡◌, ◌<◌, eqb, length};
ghost use Rattle.parts.specs.Numbers.{answer_number};
ghost use Rattle.parts.specs.Status.{bit, status_byte};
ghost use Rattle.parts.specs.Table.{Fit, part_of};
ghost use Rattle.selection.specs.Ranges.{PhaseIn};
ghost use Rattle.spi_status.specs.Deselect.{status_after, asleep_after};
ghost use Rattle.spi.specs.Sample.{selected};
ghost use Rattle.spi.specs.Show.{after_fall};
ghost use Rattle.chip.specs.Check.{Sound};
ghost use Rattle.image_fields.specs.Fields.{only_tag};
ghost use Rattle.image_fields.specs.SpiPhase as SpiPhase;
ghost use Rattle.image_fields.specs.State.{status_in, answer_in, state_in, ReadBack};
ghost use Rattle.image_sample.specs.Bits.{early_at, one_more};
ghost use Rattle.image_sample.specs.Moved.{spi_moved, spi_done};
ghost use Rattle.image_sample.specs.Stepped.{Gives};

use crate::stepped::Stepped;
use image_fields::fields::{Fields, PhaseFields};
use image_fields::tag;
use parts::answer::Answer;
use parts::part::Part;
use parts::status::Status;
use selection::edge::Edge;
use selection::levels::Levels;
use selection::phase::Phase;

// The answer is at the levels now.
fn done(fields: Fields, now: Levels, flag: bool) -> Stepped
    ensures { result ≡ spi_done fields now flag }
{
    let answer = spi::show::answer_at(now, Answer::of_number(fields.driven));
    Stepped {
        fields,
        answer: answer.number(),
        flag,
    }
}

// How many bits come before the last one, by a phase's tag. Any number does for a phase without bits, since no rise changes it; but none if
// a data byte waits, since a rise stores it. `early_of` of `phase_bits` goes by the phase, and takes a late eighth bit as those before.
fn early(part: Part, tag: u8) -> u8
    requires { Fit part }
    ensures { result ≡ early_at part tag }
{
    match tag {
        tag::READ_ADDRESS | tag::FAST_ADDRESS | tag::WRITE_ADDRESS => part.width - 1,
        tag::PENDING.. => 0,
        _ => 7,
    }
}

// CS# falls, on the fields: `spi::sample::select` gives the phase, `model::select::select` takes a whole selection as bytes.
fn select(fields: Fields, sample: u8) -> Fields
    ensures { result ≡ spi_moved fields sample fields.status 2 fields.asleep (SpiPhase.fields_of (selected (eqb fields.asleep 1))) }
{
    Fields {
        last: sample,
        driven: Answer::HighZ.number(),
        phase: PhaseFields::from(spi::sample::select(fields.asleep == 1)),
        ..fields
    }
}

// CS# rises.
#[inline(always)]
fn deselect(fields: Fields, sample: u8, wp: bool) -> Fields
    ensures { result ≡ spi_moved fields sample (status_byte (status_after (status_in fields.status) wp (SpiPhase.phase_in fields.phase))) 2 (bit (asleep_after (eqb fields.asleep 1) (SpiPhase.phase_in fields.phase))) (only_tag 0) }
{
    let phase = Phase::from(fields.phase);
    let status = Status::from(fields.status);
    let status = spi_status::deselect::status_after(status, wp, phase);
    let asleep = spi_status::deselect::asleep_after(fields.asleep == 1, phase);
    Fields {
        status: status.byte(),
        last: sample,
        driven: Answer::HighZ.number(),
        asleep: u8::from(asleep),
        phase: PhaseFields::only_tag(tag::REST),
        ..fields
    }
}

// A rise before the last bit, as on I2C; `rise` of `spi_samples` is of the others.
#[inline(always)]
fn rise(fields: Fields, sample: u8, si: bool) -> Fields
    requires { (fields.phase.count < 255) × (fields.phase.value < 2147483648) }
    ensures { result ≡ spi_moved fields sample fields.status fields.driven fields.asleep (one_more fields.phase si) }
{
    Fields {
        last: sample,
        phase: crate::bits::one_more(fields.phase, si),
        ..fields
    }
}

// A counted fall.
#[inline(always)]
fn fall(part: Part, fields: Fields, sample: u8, memory: &[u8]) -> Fields
    requires { (length memory.now ≡ part.size) × PhaseIn part (SpiPhase.phase_in fields.phase) }
    ensures { result ≡ spi_moved fields sample fields.status (answer_number (after_fall part (status_in fields.status) memory.now (SpiPhase.phase_in fields.phase) (answer_in fields.driven))) fields.asleep fields.phase }
{
    let phase = Phase::from(fields.phase);
    let status = Status::from(fields.status);
    let shown = Answer::of_number(fields.driven);
    let shown = spi::show::after_fall(part, status, memory, phase, shown);
    Fields {
        last: sample,
        driven: shown.number(),
        ..fields
    }
}

// No edge.
fn quiet(fields: Fields, sample: u8) -> Fields
    ensures { result ≡ spi_moved fields sample fields.status fields.driven fields.asleep fields.phase }
{
    Fields {
        last: sample,
        ..fields
    }
}

// A rise that makes a field or byte whole is taken elsewhere, since it may store; so is what ends the waiting of a data byte.
#[inline(always)]
pub fn spi_sample(part: Part, fields: Fields, sample: u8, memory: &[u8]) -> Option<Stepped>
    requires { ReadBack fields × (fields.power ≡ 1) × (sample < 32) × (part ≡ part_of fields.part) × Sound (state_in fields) memory.now }
    ensures { Gives fields memory.now sample result }
{
    let before = Levels::from(fields.last);
    let levels = Levels::from(sample);
    let flag = selection::flag::flag_of(before, levels);
    match selection::edge::edge_of(before, levels) {
        Edge::Select => Some(done(select(fields, sample), levels, flag)),
        Edge::Deselect if fields.phase.tag < tag::PENDING => {
            Some(done(deselect(fields, sample, levels.wp), levels, flag))
        }
        Edge::Rise { si } if fields.phase.count < early(part, fields.phase.tag) => {
            Some(done(rise(fields, sample, si), levels, flag))
        }
        Edge::Deselect | Edge::Rise { .. } => None,
        Edge::Fall => Some(done(fall(part, fields, sample, memory), levels, flag)),
        Edge::Quiet => Some(done(quiet(fields, sample), levels, flag)),
    }
}
