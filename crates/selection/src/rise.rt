// What a counted rise makes of the phase.
ghost use Rattle.std.specs.Prelude.{◌≡◌, ◌<◌, ◌^◌};
ghost use Rattle.parts.specs.Table.{Fit};
ghost use Rattle.selection.specs.Phase.{width, phase_after_opcode, data_after, phase_after_data, phase_after_field, next_source, after_taken, after_shown, after_rise};
ghost use Rattle.selection.specs.Ranges.{FieldIn, SourceIn, TakingIn, ShowingIn, PhaseIn};

use crate::opcode::Command;
use crate::phase::{Action, Field, Phase, Source};
use parts::part::Part;

// A field with none of its bits yet.
pub fn taking(field: Field) -> Phase
    ensures { result ≡ Phase.Taking field 0 0 }
{
    Phase::Taking {
        field,
        count: 0,
        value: 0,
    }
}

// The first bit of what is shown.
pub fn showing(source: Source) -> Phase
    ensures { result ≡ Phase.Showing source 0 }
{
    Phase::Showing { source, bit: 0 }
}

pub fn waiting(action: Action) -> Phase
    ensures { result ≡ Phase.Waiting action }
{
    Phase::Waiting { action }
}

// The phase after a whole opcode.
pub fn phase_after_opcode(command: Command) -> Phase
    ensures { result ≡ phase_after_opcode command }
{
    match command {
        Command::WREN => waiting(Action::SetLatch),
        Command::WRDI => waiting(Action::ClearLatch),
        Command::RDSR => showing(Source::Register),
        Command::WRSR => taking(Field::StatusByte),
        Command::READ => taking(Field::ReadAddress),
        Command::WRITE => taking(Field::WriteAddress),
        Command::FSTRD => taking(Field::FastAddress),
        Command::RDID => showing(Source::Identity { index: 0 }),
        Command::SLEEP => waiting(Action::FallAsleep),
        Command::Unknown => Phase::Ignoring,
    }
}

// The data byte of WRITE that follows one at this address.
pub fn data_after(part: Part, address: u32) -> Field
    requires { Fit part × (address < part.size) }
    ensures { result ≡ data_after part address }
{
    Field::Data {
        address: serial::address::next_address(part.size, address),
        whole: true,
    }
}

// The phase after the last bit of a data byte of WRITE: a part that stores late has yet to store it.
fn phase_after_data(part: Part, address: u32, byte: u8) -> Phase
    requires { Fit part × (address < part.size) }
    ensures { result ≡ phase_after_data part address byte }
{
    if part.late {
        Phase::Pending { address, byte }
    } else {
        taking(data_after(part, address))
    }
}

// The phase after the last bit of a field.
pub fn phase_after_field(part: Part, field: Field, value: u32) -> Phase
    requires { Fit part × FieldIn part field × (value < 2 ^ width part field) }
    ensures { result ≡ phase_after_field part field value }
{
    match field {
        Field::Opcode => phase_after_opcode(crate::opcode::command_of(part, value)),
        Field::ReadAddress => showing(Source::Memory {
            address: value % part.size,
        }),
        Field::FastAddress => taking(Field::Dummy {
            address: value % part.size,
        }),
        Field::WriteAddress => taking(Field::Data {
            address: value % part.size,
            whole: false,
        }),
        Field::Dummy { address } => showing(Source::Memory { address }),
        Field::Data { address, .. } => phase_after_data(part, address, value as u8),
        Field::StatusByte => waiting(Action::WriteStatus { byte: value as u8 }),
    }
}

// What is shown after the last bit of a byte.
fn next_source(part: Part, source: Source) -> Source
    requires { Fit part × SourceIn part source }
    ensures { result ≡ next_source part source }
{
    match source {
        Source::Memory { address } => Source::Memory {
            address: serial::address::next_address(part.size, address),
        },
        Source::Identity { index } if index < 3 => Source::Identity { index: index + 1 },
        Source::Identity { .. } | Source::Register => source,
    }
}

// One bit more of a field.
fn take_bit(part: Part, field: Field, count: u8, value: u32, si: bool) -> Phase
    requires { Fit part × TakingIn part field count value }
    ensures { result ≡ after_taken part field count value si }
{
    let value = serial::bits::shift_in(value, si);
    if count + 1 < crate::phase::width(part, field) {
        Phase::Taking {
            field,
            count: count + 1,
            value,
        }
    } else {
        phase_after_field(part, field, value)
    }
}

// The first bit of the data byte after one at this address. `take_bit` would do too, but a second call keeps the compiler from putting it
// into the loop.
fn begin_next(part: Part, address: u32, si: bool) -> Phase
    requires { Fit part × (address < part.size) }
    ensures { result ≡ after_taken part (data_after part address) 0 0 si }
{
    Phase::Taking {
        field: data_after(part, address),
        count: 1,
        value: serial::bits::shift_in(0, si),
    }
}

// One bit further in what is shown.
fn show_bit(part: Part, source: Source, bit: u8) -> Phase
    requires { Fit part × ShowingIn part source bit }
    ensures { result ≡ after_shown part source bit }
{
    if bit < 7 {
        Phase::Showing {
            source,
            bit: bit + 1,
        }
    } else {
        showing(next_source(part, source))
    }
}

// The phase after a counted rise with the bit si.
pub fn after_rise(part: Part, phase: Phase, si: bool) -> Phase
    requires { Fit part × PhaseIn part phase }
    ensures { result ≡ after_rise part phase si }
{
    match phase {
        Phase::Rest | Phase::Ignoring | Phase::Waiting { .. } => phase,
        Phase::Taking {
            field,
            count,
            value,
        } => take_bit(part, field, count, value, si),
        Phase::Showing { source, bit } => show_bit(part, source, bit),
        Phase::Pending { address, .. } => begin_next(part, address, si),
    }
}
