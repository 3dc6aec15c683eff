// The state of an SPI part under power, as the loop over consecutive samples keeps it, and what a sample does to it.
ghost use Rattle.std.specs.Prelude.{◌≡◌, refl};
ghost use Rattle.parts.specs.Table.{Fit, part_of};
ghost use Rattle.selection.specs.Flag.{flag_of};
ghost use Rattle.selection.specs.Levels.{levels_of};
ghost use Rattle.selection.specs.Ranges.{PhaseIn};
ghost use Rattle.chip.specs.declared.model.BusState.TheVariants.{SpiOn};
ghost use Rattle.spi_samples.specs.Bus.{state_of, KeptIn};

use chip::model::{BusState, Model};
use parts::answer::Answer;
use parts::part::{Bus, Part};
use parts::status::Status;
use samples::kept::Kept;
use selection::edge::Edge;
use selection::levels::Levels;
use selection::phase::Phase;
use spi::sample::Spi;

// The bits of what the phase takes or shows stand in the place of its own, and beside them how many come before the one that does more. The
// row of the part is not here: where one of its arrays is read by an index, the compiler would keep all of this in memory.
#[derive(Clone, Copy, Debug, PartialEq, Eq)]
pub struct SpiBus {
    // the part's number
    pub number: u32,
    pub pins: u32,
    pub status: Status,
    // the last sample
    pub last: u8,
    pub asleep: bool,
    pub shown: Answer,
    pub phase: Phase,
    pub bits: u8,
    pub value: u32,
    pub early: u8,
}

// What is kept of a state; of an I2C bus it is other fields.
pub fn kept(part: Part, model: Model, spi: Spi) -> SpiBus
    requires { (part ≡ part_of model.part) × (model.bus ≡ SpiOn spi) × Fit part × PhaseIn part spi.phase }
    ensures { KeptIn part result × (state_of result ≡ model) }
{
    let phase = phase_bits::field::kept_of(spi.phase);
    SpiBus {
        number: model.part,
        pins: model.pins,
        status: model.status,
        last: u8::from(spi.last),
        asleep: spi.asleep,
        shown: spi.shown,
        phase,
        bits: phase_bits::field::bits_of(spi.phase),
        value: phase_bits::field::value_of(spi.phase),
        early: phase_bits::field::early_of(part, phase),
    }
}

impl Kept for SpiBus {
    ghost state = { state_of };

    ghost fits = { KeptIn };

    ghost flag = { λ b x. flag_of (levels_of b.last) (levels_of x) };

    ghost limit = { 32 };

    ghost stays = { λ b u. refl };

    fn limit() -> u8 {
        trace::event::sample_limit(Bus::Spi)
    }

    fn last(&self) -> u8 {
        self.last
    }

    fn present(&self) -> Answer {
        spi::show::answer_at(Levels::from(self.last), self.shown)
    }

    fn flagged(&self, sample: u8) -> bool {
        selection::flag::flag_of(Levels::from(self.last), Levels::from(sample))
    }

    fn take(&mut self, part: Part, sample: u8, memory: &mut [u8]) {
        let levels = Levels::from(sample);
        let before = Levels::from(self.last);
        match selection::edge::edge_of(before, levels) {
            Edge::Select => {
                self.phase = spi::sample::select(self.asleep);
                self.early = phase_bits::field::early_of(part, self.phase);
                self.bits = 0;
                self.value = 0;
                self.shown = Answer::HighZ;
            }
            Edge::Deselect => {
                let whole = phase_bits::field::with_bits(self.phase, self.bits, self.value);
                let write = spi::store::end_write(part, self.status, whole);
                serial::write::apply(write, memory);
                self.status = spi_status::deselect::status_after(self.status, levels.wp, whole);
                self.asleep = spi_status::deselect::asleep_after(self.asleep, whole);
                self.phase = Phase::Rest;
                self.early = phase_bits::field::early_of(part, self.phase);
                self.shown = Answer::HighZ;
            }
            Edge::Rise { si } => {
                if self.bits < self.early {
                    self.bits += 1;
                    self.value = serial::bits::shift_in(self.value, si);
                } else {
                    let whole = phase_bits::field::with_bits(self.phase, self.bits, self.value);
                    self.phase = crate::turn::rise(
                        part,
                        self.status,
                        self.phase,
                        self.bits,
                        self.value,
                        si,
                        memory,
                    );
                    self.bits = phase_bits::field::next_bits(whole);
                    self.value = phase_bits::field::next_value(whole, si);
                    self.early = phase_bits::field::early_of(part, self.phase);
                }
            }
            Edge::Fall => {
                let whole = phase_bits::field::with_bits(self.phase, self.bits, self.value);
                self.shown = spi::show::after_fall(part, self.status, memory, whole, self.shown);
            }
            Edge::Quiet => {}
        }
        self.last = sample;
    }

    fn model(&self) -> Model {
        let last = Levels::from(self.last);
        let phase = phase_bits::field::with_bits(self.phase, self.bits, self.value);
        let spi = Spi {
            last,
            asleep: self.asleep,
            shown: self.shown,
            phase,
        };
        Model {
            part: self.number,
            pins: self.pins,
            status: self.status,
            bus: BusState::SpiOn { spi },
        }
    }
}
