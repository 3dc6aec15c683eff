// The state of a model.
ghost use Rattle.std.specs.Prelude.{◌≡◌};
ghost use Rattle.chip.specs.Model.{model_of, unpowered};

use i2c::sample::I2c;
use parts::status::Status;
use spi::sample::Spi;

// No power, or the part's bus under power with what it keeps between samples, its phase included.
#[derive(Clone, Copy, Debug, PartialEq, Eq)]
pub enum BusState {
    Unpowered,
    SpiOn { spi: Spi },
    I2cOn { i2c: I2c },
}

#[derive(Clone, Copy, Debug, PartialEq, Eq)]
pub struct Model {
    pub part: u32,
    // address pins
    pub pins: u32,
    // the status register, whose SRWD, BP1 and BP0 are the saved bits
    pub status: Status,
    pub bus: BusState,
}

pub fn unpowered(part: u32, pins: u32, status: Status) -> Model
    ensures { result ≡ unpowered part pins status }
{
    Model {
        part,
        pins,
        status,
        bus: BusState::Unpowered,
    }
}

// The state of this part and these pins with another register and bus.
pub fn with_bus(model: Model, status: Status, bus: BusState) -> Model
    ensures { result ≡ model_of model.part model.pins status bus }
{
    Model {
        status,
        bus,
        ..model
    }
}
