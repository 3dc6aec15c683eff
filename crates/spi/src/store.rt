// What WRITE stores.
ghost use Rattle.std.specs.Prelude.{◌≡◌, ◌<◌, ◌^◌};
ghost use Rattle.spi.specs.Store.{permitted, finished_write, data_write, rise_write, end_write};
ghost use Rattle.selection.specs.Ranges.{PhaseIn};

use parts::part::Part;
use parts::status::Status;
use selection::phase::{Field, Phase};
use serial::write::Write;

// A whole data byte of WRITE, which is written with WEL set and below the protected start.
pub fn permit(part: Part, status: Status, address: u32, value: u8) -> Option<Write>
    ensures { result ≡ permitted part status address value }
{
    if status.wel && address < status.protected_start(part) {
        Some(Write { address, value })
    } else {
        None
    }
}

// A finished data byte: a part that stores late writes nothing yet.
fn finished_write(part: Part, status: Status, address: u32, value: u8) -> Option<Write>
    ensures { result ≡ finished_write part status address value }
{
    if part.late {
        None
    } else {
        permit(part, status, address, value)
    }
}

// One bit more of a data byte.
fn data_write(
    part: Part,
    status: Status,
    address: u32,
    count: u8,
    value: u32,
    si: bool,
) -> Option<Write>
    requires { (count < 8) × (value < 2 ^ count) }
    ensures { result ≡ data_write part status address count value si }
{
    if count < 7 {
        return None;
    }
    let byte = serial::bits::shift_in(value, si) as u8;
    finished_write(part, status, address, byte)
}

// What a counted rise with the bit si writes.
pub fn rise_write(part: Part, status: Status, phase: Phase, si: bool) -> Option<Write>
    requires { PhaseIn part phase }
    ensures { result ≡ rise_write part status phase si }
{
    match phase {
        Phase::Taking {
            field: Field::Data { address, .. },
            count,
            value,
        } => data_write(part, status, address, count, value, si),
        Phase::Pending { address, byte } => permit(part, status, address, byte),
        _ => None,
    }
}

// What CS# rising writes: a data byte that waits.
pub fn end_write(part: Part, status: Status, phase: Phase) -> Option<Write>
    ensures { result ≡ end_write part status phase }
{
    match phase {
        Phase::Pending { byte, address } => permit(part, status, address, byte),
        _ => None,
    }
}
