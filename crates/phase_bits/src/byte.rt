// The bits of an I2C part's byte apart from its phase: of nine rises eight change nothing else, and the loop keeps both numbers by
// themselves.
ghost use Rattle.std.specs.Prelude.{◌≡◌};
ghost use Rattle.phase_bits.specs.Byte.{bits_of, value_of, with_bits};

use transfer::phase::Phase;

// How many rises of a byte are in.
pub fn bits_of(phase: Phase) -> u8
    ensures { result ≡ bits_of phase }
{
    match phase {
        Phase::Rest | Phase::Ignoring => 0,
        Phase::Taking { count, .. } | Phase::Sending { count, .. } => count,
    }
}

// The number that the bits of a byte that comes in make.
pub fn value_of(phase: Phase) -> u32
    ensures { result ≡ value_of phase }
{
    match phase {
        Phase::Taking { value, .. } => value,
        _ => 0,
    }
}

// The phase with so many rises, whose bits make value, in the place of its own.
pub fn with_bits(phase: Phase, bits: u8, value: u32) -> Phase
    ensures { result ≡ with_bits phase bits value }
{
    match phase {
        Phase::Rest | Phase::Ignoring => phase,
        Phase::Taking { field, .. } => Phase::Taking {
            field,
            count: bits,
            value,
        },
        Phase::Sending { address, .. } => Phase::Sending {
            address,
            count: bits,
        },
    }
}
