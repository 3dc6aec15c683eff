// The events of a trace, and how large a sample may be.
ghost use Rattle.std.specs.Prelude.{◌≡◌};
ghost use Rattle.trace.specs.Event.{sample_limit};

use parts::part::Bus;

// The kind byte of each event.
#[derive(Clone, Copy, Debug, PartialEq, Eq)]
pub enum Kind {
    SpiPowerOn = 1,
    I2cPowerOn = 2,
    PowerOff = 3,
    Sample = 4,
    Expected = 5,
}

#[derive(Clone, Copy, Debug, PartialEq, Eq)]
pub enum Event {
    SpiPowerOn { sample: u8 },
    // with the start address
    I2cPowerOn { sample: u8, start: u32 },
    PowerOff,
    Sample { sample: u8 },
    Expected { answer: u8 },
}

// One past the largest sample.
pub fn sample_limit(bus: Bus) -> u8
    ensures { result ≡ sample_limit bus }
{
    match bus {
        Bus::Spi => 32,
        Bus::I2c => 8,
    }
}
