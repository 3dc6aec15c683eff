// Bits come and go with the most significant one first.
ghost use Rattle.std.specs.Prelude.{◌≡◌, ◌<◌, ◌^◌, ltb};
ghost use Rattle.serial.specs.Bits.{shifted, bit_at};

// A number with one bit more.
pub fn shift_in(value: u32, bit: bool) -> u32
    requires { value < 2147483648 }
    ensures { result ≡ shifted value bit }
{
    let low = u32::from(bit);
    2 * value + low
}

// Bit 7 - k of a byte.
pub fn bit_at(byte: u8, k: u8) -> bool
    requires { k < 8 }
    ensures { result ≡ bit_at byte k }
{
    (byte >> (7 - k)) % 2 == 1
}

// Whether a number is one of count bits.
pub fn has_bits(value: u32, count: u8) -> bool
    requires { count < 32 }
    ensures { result ≡ ltb value (2 ^ count) }
{
    value >> count == 0
}
