// What a rise of SCL makes of the phase. The names are those of `selection`, whose bytes have no ninth rise and whose phases have other cases:
// one function of both would only choose between two.
ghost use Rattle.std.specs.Prelude.{◌≡◌, ◌<◌};
ghost use Rattle.parts.specs.Table.{Fit};
ghost use Rattle.transfer.specs.Phase.{phase_after_word, phase_after_byte, after_taken, after_sent, after_rise};
ghost use Rattle.transfer.specs.Ranges.{FieldIn, PhaseIn, Placed};

use crate::buffer::AddressBuffer;
use crate::phase::{Field, Phase};
use crate::word::DeviceWord;
use parts::part::Part;

// A byte with none of its bits yet.
pub fn taking(field: Field) -> Phase
    ensures { result ≡ Phase.Taking field 0 0 }
{
    Phase::Taking {
        field,
        count: 0,
        value: 0,
    }
}

// The phase after the ninth rise of a word.
fn phase_after_word(part: Part, buffer: AddressBuffer, word: DeviceWord) -> Phase
    requires { Fit part × (buffer.address < part.size) }
    ensures { result ≡ phase_after_word part buffer word }
{
    match word {
        DeviceWord::ReadWord { a16 } => Phase::Sending {
            address: crate::buffer::read_address(part, buffer, a16),
            count: 0,
        },
        DeviceWord::WriteWord { a16 } => taking(Field::HighByte { a16 }),
        DeviceWord::OtherWord => Phase::Ignoring,
    }
}

// The phase after the ninth rise of a byte that came in as value.
fn phase_after_byte(part: Part, pins: u8, buffer: AddressBuffer, field: Field, value: u8) -> Phase
    requires { Placed part pins buffer × FieldIn part field }
    ensures { result ≡ phase_after_byte part pins buffer field value }
{
    match field {
        Field::Word => phase_after_word(
            part,
            buffer,
            crate::word::word_of(part, pins, value as u32),
        ),
        Field::HighByte { a16 } => taking(Field::LowByte { a16, high: value }),
        Field::LowByte { a16, high } => taking(Field::Data {
            address: crate::buffer::address_of_bytes(part, a16, high, value),
        }),
        Field::Data { address } => taking(Field::Data {
            address: serial::address::next_address(part.size, address),
        }),
    }
}

// One rise more of a byte that comes in.
fn take_bit(
    part: Part,
    pins: u8,
    buffer: AddressBuffer,
    field: Field,
    count: u8,
    value: u32,
    line: bool,
) -> Phase
    requires { Placed part pins buffer × PhaseIn part (Phase.Taking field count value) }
    ensures { result ≡ after_taken part pins buffer field count value line }
{
    if count < 8 {
        Phase::Taking {
            field,
            count: count + 1,
            value: serial::bits::shift_in(value, line),
        }
    } else {
        phase_after_byte(part, pins, buffer, field, value as u8)
    }
}

// One rise more of a byte that goes out.
fn send_bit(part: Part, address: u32, count: u8, line: bool) -> Phase
    requires { Fit part × PhaseIn part (Phase.Sending address count) }
    ensures { result ≡ after_sent part address count line }
{
    if count < 8 {
        Phase::Sending {
            address,
            count: count + 1,
        }
    } else if line {
        Phase::Ignoring
    } else {
        Phase::Sending {
            address: serial::address::next_address(part.size, address),
            count: 0,
        }
    }
}

// The phase after a rise of SCL with the line at that level.
pub fn after_rise(part: Part, pins: u8, buffer: AddressBuffer, phase: Phase, line: bool) -> Phase
    requires { Placed part pins buffer × PhaseIn part phase }
    ensures { result ≡ after_rise part pins buffer phase line }
{
    match phase {
        Phase::Rest | Phase::Ignoring => phase,
        Phase::Taking {
            field,
            count,
            value,
        } => take_bit(part, pins, buffer, field, count, value, line),
        Phase::Sending { address, count } => send_bit(part, address, count, line),
    }
}
