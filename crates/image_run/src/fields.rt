// One event taken on the fields of an image, if it is a sample that completes no field or byte, or an expected answer that holds.
ghost use Rattle.std.specs.Prelude.{◌≡◌, true};
ghost use Rattle.chip.specs.Check.{Sound};
ghost use Rattle.image.specs.Taken.{state_of, taken};
ghost use Rattle.image_run.specs.Sampled.{ImageGives};

use image_fields::fields::{POWER_I2C, POWER_SPI};
use image_sample::stepped::Stepped;
use parts::part::Bus;
use trace::event::{Kind, sample_limit};

pub fn on_fields(state: &[u8], event: &[u8], memory: &[u8]) -> Option<Stepped>
    requires { (taken state.now ≡ true) × Sound (state_of state.now) memory.now }
    ensures { ImageGives state.now event.now memory.now result }
{
    let Ok(image) = <&[u8; 32]>::try_from(state) else {
        return None;
    };
    let fields = image::layout::fields_in(image);
    let [kind, byte, ..] = *event else {
        return None;
    };
    // the byte is asked, and no `Kind` made of it: an event may begin with any byte
    if kind == Kind::Expected as u8 {
        return crate::expected::expected_on(fields, byte);
    }
    if kind != Kind::Sample as u8 {
        return None;
    }
    let part = parts::part::part_of(usize::from(fields.part));
    match fields.power {
        POWER_SPI if byte < sample_limit(Bus::Spi) => {
            image_sample::spi_sample::spi_sample(part, fields, byte, memory)
        }
        POWER_I2C if byte < sample_limit(Bus::I2c) => image_sample::i2c_sample::i2c_sample(
            part, fields, byte, memory,
        ),
        _ => None,
    }
}
