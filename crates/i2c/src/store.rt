// What a rise of SCL writes. The `rise_write` of `spi` is another rule: WEL and block protection decide there, and WP here.
ghost use Rattle.std.specs.Prelude.{◌≡◌};
ghost use Rattle.i2c.specs.Store.{rise_write};
ghost use Rattle.transfer.specs.Ranges.{PhaseIn};

use parts::part::Part;
use serial::write::Write;
use transfer::phase::{Field, Phase};

pub fn rise_write(part: Part, phase: Phase, wp: bool) -> Option<Write>
    requires { PhaseIn part phase }
    ensures { result ≡ rise_write phase wp }
{
    match phase {
        Phase::Taking {
            field: Field::Data { address },
            count,
            value,
        } if count >= 8 && !wp => Some(Write {
            address,
            value: value as u8,
        }),
        _ => None,
    }
}
