// An expected answer that holds, on the fields of an image: it changes nothing.
ghost use Rattle.std.specs.Prelude.{◌≡◌, false, ℕ, List};
ghost use Rattle.parts.specs.Numbers.{answer_number, answer_in};
ghost use Rattle.selection.specs.Levels.{levels_of};
ghost use Rattle.spi.specs.Show.{answer_at};
ghost use Rattle.image_fields.specs.State.{ReadBack};
ghost use Rattle.image_run.specs.Sampled.{ExpectedGives};

use image_fields::fields::{Fields, POWER_I2C, POWER_SPI};
use image_sample::stepped::Stepped;
use parts::answer::Answer;
use selection::levels::Levels;

fn held(fields: Fields, value: u8) -> Stepped
    ensures { result ≡ record { fields = fields; answer = value; flag = false } }
{
    Stepped {
        fields,
        answer: value,
        flag: false,
    }
}

// The number of the present answer of an SPI part.
fn shown(fields: Fields) -> u8
    ensures { result ≡ answer_number (answer_at (levels_of fields.last) (answer_in fields.driven)) }
{
    spi::show::answer_at(Levels::from(fields.last), Answer::of_number(fields.driven)).number()
}

pub fn expected_on(fields: Fields, value: u8) -> Option<Stepped>
    requires { ReadBack fields }
    ensures { (m : List ℕ) → ExpectedGives fields m value result }
{
    match fields.power {
        POWER_SPI if value == shown(fields) => Some(held(fields, value)),
        POWER_I2C if value == fields.driven => Some(held(fields, value)),
        _ => None,
    }
}
