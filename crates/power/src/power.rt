// What power on makes of each bus, and what power off leaves of the status register.
ghost use Rattle.std.specs.Prelude.{◌≡◌};
ghost use Rattle.power.specs.Power.{spi_start, i2c_start, kept_status};

use i2c::sample::I2c;
use parts::answer::Answer;
use parts::part::Part;
use parts::status::Status;
use spi::sample::Spi;
use transfer::buffer::AddressBuffer;

// An SPI part at power on: awake, and if CS# is low it ignores the bus until CS# has been high.
pub fn spi_start(levels: selection::levels::Levels) -> Spi
    ensures { result ≡ spi_start levels }
{
    let phase = if levels.cs {
        selection::phase::Phase::Rest
    } else {
        selection::phase::Phase::Ignoring
    };
    Spi {
        last: levels,
        asleep: false,
        shown: Answer::HighZ,
        phase,
    }
}

// An I2C part at power on: at rest, with an unused start address.
pub fn i2c_start(levels: transfer::levels::Levels, start: u32) -> I2c
    ensures { result ≡ i2c_start levels start }
{
    I2c {
        last: levels,
        pulling: false,
        buffer: AddressBuffer {
            address: start,
            used: false,
        },
        phase: transfer::phase::Phase::Rest,
    }
}

// The status register after power off: SRWD, BP1 and BP0 stay on a part that saves them.
pub fn kept_status(part: Part, status: Status) -> Status
    ensures { result ≡ kept_status part status }
{
    if part.saved {
        status.with_wel(false)
    } else {
        Status::CLEARED
    }
}
