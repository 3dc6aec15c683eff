// What a sample asks and does: its edge, and what a rise stores.
ghost use Rattle.std.specs.Prelude.{◌≡◌, ◌≤◌, ◌<◌, ◌+◌, length};
ghost use Rattle.parts.specs.Numbers.{answer_number};
ghost use Rattle.serial.specs.Write.{applied};
ghost use Rattle.transfer.specs.Edge.{edge_of};
ghost use Rattle.transfer.specs.Levels.{levels_of};
ghost use Rattle.transfer.specs.Ranges.{PhaseIn};
ghost use Rattle.i2c.specs.Sample.{answer_of};
ghost use Rattle.i2c.specs.Store.{rise_write};
ghost use Rattle.chip.specs.declared.model.BusState.TheVariants.{I2cOn};
ghost use Rattle.samples.specs.Bound.{next_before};
ghost use Rattle.samples.specs.Samples.{i2c_of};

use chip::model::BusState;
use i2c::sample::I2c;
use parts::part::{Bus, Part};
use transfer::buffer::AddressBuffer;
use transfer::edge::Edge;
use transfer::levels::Levels;
use transfer::phase::Phase;

// What happens between two samples, by SCL first: most have an edge of it, for which the line before does not matter.
pub fn clock_first(pulling: bool, last: u8, sample: u8) -> Edge
    ensures { result ≡ edge_of pulling (levels_of last) (levels_of sample) }
{
    let before = Levels::from(last);
    let now = Levels::from(sample);
    match (last % 2 == sample % 2, now.scl) {
        (true, true) => transfer::edge::edge_of(pulling, before, now),
        (true, false) => Edge::Quiet,
        (false, true) => Edge::Rise {
            line: transfer::edge::line_of(now.sda, pulling),
        },
        (false, false) => Edge::Fall,
    }
}

// What a rise of SCL writes is stored. Here and not in the loop, which is quicker so.
pub fn store(part: Part, phase: Phase, wp: bool, memory: &mut [u8])
    requires { PhaseIn part phase × (length memory.old ≡ part.size) }
    ensures { memory.new ≡ applied (rise_write phase wp) memory.old }
{
    let write = i2c::store::rise_write(part, phase, wp);
    serial::write::apply(write, memory);
}
