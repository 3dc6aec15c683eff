// Whether fields are those of a state that passes 1 and 2.
ghost use Rattle.std.specs.Prelude.{◌≡◌, true, cond, not, ◌&&◌, eqb};
ghost use Rattle.parts.specs.Status.{status_byte};
ghost use Rattle.parts.specs.Table.{Fit};
ghost use Rattle.chip.specs.declared.model.BusState.TheVariants as BusState;
ghost use Rattle.chip.specs.Check.{bits_clear};
ghost use Rattle.image_fields.specs.State.{status_in, spi_in, i2c_in, bus_from};
ghost use Rattle.image.specs.Taken.{takes_fields};
ghost use Rattle.image_check.specs.Bus.{takes_bus};

use image_fields::fields::{Fields, POWER_I2C, POWER_OFF, POWER_SPI};
use image_fields::tag;
use parts::part::{Bus, PARTS, Part};
use parts::status::Status;
use trace::event::sample_limit;

// Whether the status register has no other bits than SRWD, BP1, BP0 and WEL.
fn status_fits(byte: u8) -> bool
    ensures { result ≡ eqb (status_byte (status_in byte)) byte }
{
    byte % 2 == 0 && byte / 16 % 8 == 0
}

// Whether WEL is 0, and the other bits are too if the part may not hold them.
fn latch_clear(saved: bool, status: Status) -> bool
    ensures { result ≡ (cond saved true (bits_clear status) && not status.wel) }
{
    (saved || chip::check::bits_clear(status)) && !status.wel
}

// Without power nothing is kept but part, pins and status.
fn off_takes(part: Part, fields: Fields) -> bool
    requires { fields.power ≡ 0 }
    ensures { result ≡ takes_bus part fields BusState.Unpowered }
{
    fields.last == 0
        && fields.driven == 0
        && fields.asleep == 0
        && fields.buffer == 0
        && fields.used == 0
        && fields.phase.tag == tag::REST
        && crate::phase::bare(fields.phase)
        && latch_clear(part.saved, Status::from(fields.status))
}

fn spi_takes(part: Part, fields: Fields) -> bool
    requires { Fit part × (fields.power ≡ 1) }
    ensures { result ≡ takes_bus part fields (BusState.SpiOn (spi_in fields)) }
{
    // below 3 are the numbers of answers; the byte may be any, and so is asked as a number
    fields.last < sample_limit(Bus::Spi)
        && fields.driven < 3
        && fields.asleep < 2
        && fields.buffer == 0
        && fields.used == 0
        && part.bus == Bus::Spi
        && crate::spi_phase::takes(part, fields.phase)
}

fn i2c_takes(part: Part, fields: Fields) -> bool
    requires { fields.power ≡ 2 }
    ensures { result ≡ takes_bus part fields (BusState.I2cOn (i2c_in fields)) }
{
    // 0 and 2 are the numbers of the answers that the part can give; the byte may be any
    fields.last < sample_limit(Bus::I2c)
        && matches!(fields.driven, 0 | 2)
        && fields.asleep == 0
        && fields.used < 2
        && part.bus == Bus::I2c
        && fields.buffer < part.size
        && latch_clear(part.saved, Status::from(fields.status))
        && crate::i2c_phase::takes(part, fields.phase)
}

// What is left to test for the part that the fields name.
fn bus_takes(part: Part, fields: Fields) -> bool
    requires { Fit part }
    ensures { result ≡ takes_bus part fields (bus_from fields) }
{
    match fields.power {
        POWER_OFF => off_takes(part, fields),
        POWER_SPI => spi_takes(part, fields),
        POWER_I2C => i2c_takes(part, fields),
        _ => false,
    }
}

// Whether fields are those of a state that passes 1 and 2. The part's number comes first, since the other tests go by its row.
// `takes` of `spi_phase` and `i2c_phase` are of the phase alone, by the tags of each bus.
#[tactic(auto, using(crate::proofs::BusLaws::takes_tests))]
pub fn takes(fields: Fields) -> bool
    ensures { result ≡ takes_fields fields }
{
    let number = usize::from(fields.part);
    if number >= PARTS.len() {
        return false;
    }
    let part = parts::part::part_of(number);
    fields.pins < part.pins && status_fits(fields.status) && bus_takes(part, fields)
}
