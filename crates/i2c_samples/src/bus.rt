// The state of an I2C part under power, as the loop over consecutive samples keeps it, and what a sample does to it.
ghost use Rattle.std.specs.Prelude.{◌≡◌, ◌<◌, refl};
ghost use Rattle.parts.specs.Table.{part_of};
ghost use Rattle.transfer.specs.Flag.{flag_of};
ghost use Rattle.transfer.specs.Levels.{levels_of};
ghost use Rattle.transfer.specs.Ranges.{PhaseIn};
ghost use Rattle.chip.specs.declared.model.BusState.TheVariants.{I2cOn};
ghost use Rattle.i2c_samples.specs.Bus.{state_of, KeptIn};

use chip::model::{BusState, Model};
use i2c::sample::I2c;
use parts::answer::Answer;
use parts::part::{Bus, Part};
use parts::status::Status;
use samples::kept::Kept;
use transfer::buffer::AddressBuffer;
use transfer::edge::Edge;
use transfer::levels::Levels;
use transfer::phase::{Field, Phase};

// The rises and bits of the byte that the phase takes or sends stand in the place of its own.
#[derive(Clone, Copy, Debug, PartialEq, Eq)]
pub struct I2cBus {
    // the part's number
    pub number: u32,
    pub pins: u8,
    pub status: Status,
    // the last sample
    pub last: u8,
    pub pulling: bool,
    pub buffer: AddressBuffer,
    pub phase: Phase,
    pub bits: u8,
    pub value: u32,
}

// What is kept of a state.
pub fn kept(part: Part, model: Model, i2c: I2c) -> I2cBus
    requires { (part ≡ part_of model.part) × (model.bus ≡ I2cOn i2c) × (model.pins < 8) × PhaseIn part i2c.phase }
    ensures { KeptIn part result × (state_of result ≡ model) }
{
    I2cBus {
        number: model.part,
        pins: model.pins as u8,
        status: model.status,
        last: u8::from(i2c.last),
        pulling: i2c.pulling,
        buffer: i2c.buffer,
        phase: i2c.phase,
        bits: phase_bits::byte::bits_of(i2c.phase),
        value: phase_bits::byte::value_of(i2c.phase),
    }
}

impl Kept for I2cBus {
    ghost state = { state_of };

    ghost fits = { KeptIn };

    ghost flag = { λ b x. flag_of b.phase (levels_of b.last) (levels_of x) };

    ghost limit = { 8 };

    ghost stays = { λ b u. refl };

    fn limit() -> u8 {
        trace::event::sample_limit(Bus::I2c)
    }

    fn last(&self) -> u8 {
        self.last
    }

    fn present(&self) -> Answer {
        i2c::sample::answer_of(self.pulling)
    }

    fn flagged(&self, sample: u8) -> bool {
        transfer::flag::flag_of(self.phase, Levels::from(self.last), Levels::from(sample))
    }

    fn take(&mut self, part: Part, sample: u8, memory: &mut [u8]) {
        let levels = Levels::from(sample);
        match crate::turn::clock_first(self.pulling, self.last, sample) {
            Edge::Start => {
                self.phase = transfer::rise::taking(Field::Word);
                self.bits = 0;
                self.value = 0;
                self.pulling = false;
            }
            Edge::Stop => {
                self.phase = Phase::Rest;
                self.pulling = false;
            }
            Edge::Rise { line } => {
                if self.bits < 8 {
                    self.bits += 1;
                    self.value = serial::bits::shift_in(self.value, line);
                } else {
                    let whole = phase_bits::byte::with_bits(self.phase, self.bits, self.value);
                    crate::turn::store(part, whole, levels.wp, memory);
                    self.phase = transfer::rise::after_rise(
                        part,
                        self.pins,
                        self.buffer,
                        whole,
                        line,
                    );
                    self.buffer = transfer::buffer::buffer_after(part, self.buffer, whole);
                    self.bits = 0;
                    self.value = 0;
                }
            }
            Edge::Fall => {
                let whole = phase_bits::byte::with_bits(self.phase, self.bits, self.value);
                self.pulling = i2c::pull::pulls_after(part, self.pins, memory, whole);
            }
            Edge::Quiet => {}
        }
        self.last = sample;
    }

    fn model(&self) -> Model {
        let last = Levels::from(self.last);
        let phase = phase_bits::byte::with_bits(self.phase, self.bits, self.value);
        let i2c = I2c {
            last,
            pulling: self.pulling,
            buffer: self.buffer,
            phase,
        };
        Model {
            part: self.number,
            pins: u32::from(self.pins),
            status: self.status,
            bus: BusState::I2cOn { i2c },
        }
    }
}
