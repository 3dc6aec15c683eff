// A state as fields, and back.
ghost use Rattle.std.specs.Prelude.{◌≡◌, ◌<◌};
ghost use Rattle.image_fields.specs.State.{fields_of, spi_in, i2c_in, bus_from, state_in};

use crate::fields::{Fields, POWER_I2C, POWER_OFF, POWER_SPI, PhaseFields};
use crate::tag;
use chip::model::{BusState, Model};
use i2c::sample::I2c;
use parts::answer::Answer;
use parts::status::Status;
use spi::sample::Spi;
use transfer::buffer::AddressBuffer;

// Without power nothing else is kept than part, pins and status.
pub fn fields_of(model: Model) -> Fields
    requires { (model.part < 256) × (model.pins < 256) }
    ensures { result ≡ fields_of model }
{
    let off = Fields {
        part: model.part as u8,
        pins: model.pins as u8,
        status: model.status.byte(),
        power: POWER_OFF,
        last: 0,
        driven: 0,
        asleep: 0,
        phase: PhaseFields::only_tag(tag::REST),
        buffer: 0,
        used: 0,
    };
    match model.bus {
        BusState::Unpowered => off,
        BusState::SpiOn { spi } => Fields {
            power: POWER_SPI,
            last: u8::from(spi.last),
            driven: spi.shown.number(),
            asleep: u8::from(spi.asleep),
            phase: PhaseFields::from(spi.phase),
            ..off
        },
        BusState::I2cOn { i2c } => Fields {
            power: POWER_I2C,
            last: u8::from(i2c.last),
            driven: i2c::sample::answer_of(i2c.pulling).number(),
            phase: PhaseFields::from(i2c.phase),
            buffer: i2c.buffer.address,
            used: u8::from(i2c.buffer.used),
            ..off
        },
    }
}

impl From<Fields> for Spi {
    ghost from_gives = { λ fields spi. spi ≡ spi_in fields };

    fn from(fields: Fields) -> Spi {
        Spi {
            last: selection::levels::Levels::from(fields.last),
            asleep: fields.asleep == 1,
            shown: Answer::of_number(fields.driven),
            phase: selection::phase::Phase::from(fields.phase),
        }
    }
}

impl From<Fields> for I2c {
    ghost from_gives = { λ fields i2c. i2c ≡ i2c_in fields };

    fn from(fields: Fields) -> I2c {
        I2c {
            last: transfer::levels::Levels::from(fields.last),
            pulling: fields.driven == 0,
            buffer: AddressBuffer {
                address: fields.buffer,
                used: fields.used == 1,
            },
            phase: transfer::phase::Phase::from(fields.phase),
        }
    }
}

// A power that is none reads as no power.
impl From<Fields> for BusState {
    ghost from_gives = { λ fields bus. bus ≡ bus_from fields };

    fn from(fields: Fields) -> BusState {
        match fields.power {
            POWER_SPI => BusState::SpiOn {
                spi: Spi::from(fields),
            },
            POWER_I2C => BusState::I2cOn {
                i2c: I2c::from(fields),
            },
            _ => BusState::Unpowered,
        }
    }
}

// The state that has these fields, if they are those of a state.
impl From<Fields> for Model {
    ghost from_gives = { λ fields model. model ≡ state_in fields };

    fn from(fields: Fields) -> Model {
        Model {
            part: u32::from(fields.part),
            pins: u32::from(fields.pins),
            status: Status::from(fields.status),
            bus: BusState::from(fields),
        }
    }
}
