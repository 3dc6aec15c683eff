// The bits of an SPI part's field or byte apart from its phase: most rises change nothing else, and the loop keeps both numbers by
// themselves. A data byte that waits is kept as one whose eight bits are in: so the loop has no phase for it, and takes the eighth bit as it
// takes those before.
ghost use Rattle.std.specs.Prelude.{◌≡◌, ◌<◌, ◌^◌};
ghost use Rattle.parts.specs.Table.{Fit};
ghost use Rattle.phase_bits.specs.Field.{coming_of, bits_of, value_of, ByteIn, kept_of, early_in, early_of, taken_bits, with_bits, next_bits, next_value};

use parts::part::Part;
use selection::phase::{Field, Phase};

// The address of the data byte of WRITE that comes in, if one does.
pub fn coming_in(phase: Phase) -> Option<u32>
    ensures { result ≡ coming_of phase }
{
    match phase {
        Phase::Taking {
            field: Field::Data { address, .. },
            ..
        } => Some(address),
        _ => None,
    }
}

// How many bits are in or have been shown.
pub fn bits_of(phase: Phase) -> u8
    ensures { result ≡ bits_of phase }
{
    match phase {
        Phase::Rest | Phase::Ignoring | Phase::Waiting { .. } => 0,
        Phase::Taking { count, .. } => count,
        Phase::Showing { bit, .. } => bit,
        Phase::Pending { .. } => 8,
    }
}

// The number that those that are in make.
pub fn value_of(phase: Phase) -> u32
    ensures { (result ≡ value_of phase) × ByteIn phase }
{
    match phase {
        Phase::Taking { value, .. } => value,
        Phase::Pending { byte, .. } => u32::from(byte),
        _ => 0,
    }
}

// The phase that is kept beside them.
pub fn kept_of(phase: Phase) -> Phase
    ensures { result ≡ kept_of phase }
{
    match phase {
        Phase::Pending { address, .. } => selection::rise::taking(Field::Data {
            address,
            whole: true,
        }),
        _ => phase,
    }
}

// How many bits of a field come before the one that does more than add itself.
fn early_in(part: Part, field: Field) -> u8
    requires { Fit part }
    ensures { result ≡ early_in part field }
{
    match field {
        Field::ReadAddress | Field::FastAddress | Field::WriteAddress => part.width - 1,
        Field::Data { .. } if part.late => 8,
        Field::Opcode | Field::Dummy { .. } | Field::Data { .. } | Field::StatusByte => 7,
    }
}

// Of a phase that is kept. Any number does for one without bits, since no rise changes it.
pub fn early_of(part: Part, phase: Phase) -> u8
    requires { Fit part }
    ensures { result ≡ early_of part phase }
{
    match phase {
        Phase::Taking { field, .. } => early_in(part, field),
        Phase::Pending { .. } => 0,
        _ => 7,
    }
}

// So many bits of a field, which make value: a data byte with eight waits.
fn taken_bits(field: Field, bits: u8, value: u32) -> Phase
    requires { value < 2 ^ bits }
    ensures { result ≡ taken_bits field bits value }
{
    match field {
        Field::Data { address, .. } if bits == 8 => Phase::Pending {
            byte: value as u8,
            address,
        },
        _ => Phase::Taking {
            field,
            count: bits,
            value,
        },
    }
}

// The phase with so many bits, which make value, in the place of its own.
pub fn with_bits(phase: Phase, bits: u8, value: u32) -> Phase
    requires { value < 2 ^ bits }
    ensures { result ≡ with_bits phase bits value }
{
    match phase {
        Phase::Taking { field, .. } => taken_bits(field, bits, value),
        Phase::Showing { source, .. } => Phase::Showing { source, bit: bits },
        _ => phase,
    }
}

// How many bits a phase has after a rise that does more than add one: none, but after a data byte that waited the first of the next.
pub fn next_bits(phase: Phase) -> u8
    ensures { result ≡ next_bits phase }
{
    match phase {
        Phase::Pending { .. } => 1,
        _ => 0,
    }
}

// The number that they make.
pub fn next_value(phase: Phase, si: bool) -> u32
    ensures { result ≡ next_value phase si }
{
    match phase {
        Phase::Pending { .. } => serial::bits::shift_in(0, si),
        _ => 0,
    }
}
