// Tests on the fields of a phase that both buses use.
ghost use Rattle.std.specs.Prelude.{◌≡◌, ◌≤◌, ◌^◌, ◌&&◌, eqb, ltb};

use image_fields::fields::PhaseFields;

// A phase that has no numbers.
pub fn bare(phase: PhaseFields) -> bool
    ensures { result ≡ (eqb phase.count 0 && (eqb phase.value 0 && (eqb phase.address 0 && eqb phase.detail 0))) }
{
    phase.count == 0 && phase.value == 0 && phase.address == 0 && phase.detail == 0
}

// Fewer bits than the width are in, which make a number of as many bits.
pub fn bits_in(phase: PhaseFields, width: u8) -> bool
    requires { width ≤ 32 }
    ensures { result ≡ (ltb phase.count width && ltb phase.value (2 ^ phase.count)) }
{
    phase.count < width && serial::bits::has_bits(phase.value, phase.count)
}

// Address and detail are not used.
pub fn unaddressed(phase: PhaseFields) -> bool
    ensures { result ≡ (eqb phase.address 0 && eqb phase.detail 0) }
{
    phase.address == 0 && phase.detail == 0
}

// Bits of the memory go out, fewer than the width; value and detail are not used.
pub fn sent(phase: PhaseFields, size: u32, width: u8) -> bool
    ensures { result ≡ ((eqb phase.value 0 && eqb phase.detail 0) && (ltb phase.address size && ltb phase.count width)) }
{
    phase.value == 0 && phase.detail == 0 && phase.address < size && phase.count < width
}
