// The address buffer, and addresses made of a word's A16 and two bytes.
ghost use Rattle.std.specs.Prelude.{◌≡◌, ◌<◌};
ghost use Rattle.parts.specs.Table.{Fit};
ghost use Rattle.transfer.specs.Buffer.{address_of_bytes, with_a16, read_address, field_buffer, buffer_after};
ghost use Rattle.transfer.specs.Ranges.{PhaseIn};

use crate::phase::{Field, Phase};
use parts::part::Part;

#[derive(Clone, Copy, Debug, PartialEq, Eq)]
pub struct AddressBuffer {
    pub address: u32,
    pub used: bool,
}

// The address of A16, the first and the second address byte.
pub fn address_of_bytes(part: Part, a16: bool, high: u8, low: u8) -> u32
    requires { Fit part }
    ensures { result ≡ address_of_bytes part a16 high low }
{
    u32::from_be_bytes([0, u8::from(a16), high, low]) % part.size
}

// An address with A16 for its bit 16, where the word carries A16.
fn with_a16(part: Part, a16: bool, address: u32) -> u32
    requires { Fit part × (address < part.size) }
    ensures { (result ≡ with_a16 part a16 address) × (result < part.size) }
{
    if part.a16 {
        65536 * u32::from(a16) + address % 65536
    } else {
        address
    }
}

// Where a read word begins.
pub fn read_address(part: Part, buffer: AddressBuffer, a16: bool) -> u32
    requires { Fit part × (buffer.address < part.size) }
    ensures { result ≡ read_address part buffer a16 }
{
    let address = with_a16(part, a16, buffer.address);
    if buffer.used {
        serial::address::next_address(part.size, address)
    } else {
        address
    }
}

// The buffer after the ninth rise of a byte that came in as value.
fn field_buffer(part: Part, buffer: AddressBuffer, field: Field, value: u8) -> AddressBuffer
    requires { Fit part }
    ensures { result ≡ field_buffer part buffer field value }
{
    match field {
        Field::Word | Field::HighByte { .. } => buffer,
        Field::LowByte { a16, high } => AddressBuffer {
            address: address_of_bytes(part, a16, high, value),
            used: false,
        },
        Field::Data { address } => AddressBuffer {
            address,
            used: true,
        },
    }
}

// The buffer after a rise of SCL.
pub fn buffer_after(part: Part, buffer: AddressBuffer, phase: Phase) -> AddressBuffer
    requires { Fit part × PhaseIn part phase }
    ensures { result ≡ buffer_after part buffer phase }
{
    match phase {
        Phase::Taking {
            field,
            count,
            value,
        } if count >= 8 => field_buffer(part, buffer, field, value as u8),
        Phase::Sending { address, count } if count >= 8 => AddressBuffer {
            address,
            used: true,
        },
        _ => buffer,
    }
}
