// Where each field of an image stands among its bytes.
ghost use Rattle.std.specs.Prelude.{◌≡◌, ◌++◌, length};
ghost use Rattle.image.specs.Bytes.{bytes_of};
ghost use Rattle.image.specs.Layout.{spelled, fields_in};

use image_fields::fields::{Fields, PhaseFields};

pub fn fields_in(bytes: &[u8; 32]) -> Fields
    ensures { result ≡ fields_in bytes.now }
{
    Fields {
        part: bytes[0],
        pins: bytes[1],
        status: bytes[2],
        power: bytes[3],
        last: bytes[4],
        driven: bytes[5],
        asleep: bytes[6],
        phase: PhaseFields {
            tag: bytes[7],
            count: bytes[8],
            value: u32::from_be_bytes([0, bytes[9], bytes[10], bytes[11]]),
            address: u32::from_be_bytes([0, bytes[12], bytes[13], bytes[14]]),
            detail: bytes[15],
        },
        buffer: u32::from_be_bytes([0, bytes[16], bytes[17], bytes[18]]),
        used: bytes[19],
    }
}

// All 32 bytes of an image. Each is stored where it stands: by way of an array on the stack an event by itself took 10 ns more.
pub fn put_fields(bytes: &mut [u8], fields: Fields)
    requires { length bytes.old ≡ 32 }
    ensures { bytes.new ≡ spelled fields }
{
    let phase = fields.phase;
    let [_, v2, v1, v0] = phase.value.to_be_bytes();
    let [_, a2, a1, a0] = phase.address.to_be_bytes();
    let [_, b2, b1, b0] = fields.buffer.to_be_bytes();
    // no `fill`, which is left a loop: the compiler does not see that the bytes are 32
    bytes.copy_from_slice(&[0; 32]);
    bytes[0] = fields.part;
    bytes[1] = fields.pins;
    bytes[2] = fields.status;
    bytes[3] = fields.power;
    bytes[4] = fields.last;
    bytes[5] = fields.driven;
    bytes[6] = fields.asleep;
    bytes[7] = phase.tag;
    bytes[8] = phase.count;
    bytes[9] = v2;
    bytes[10] = v1;
    bytes[11] = v0;
    bytes[12] = a2;
    bytes[13] = a1;
    bytes[14] = a0;
    bytes[15] = phase.detail;
    bytes[16] = b2;
    bytes[17] = b1;
    bytes[18] = b0;
    bytes[19] = fields.used;
}

// Four numbers of eight bytes, which are all 32 bytes.
pub fn put_numbers(bytes: &mut [u8], first: u64, second: u64, third: u64, fourth: u64)
    requires { length bytes.old ≡ 32 }
    ensures { bytes.new ≡ bytes_of 8 first ++ (bytes_of 8 second ++ (bytes_of 8 third ++ bytes_of 8 fourth)) }
{
    bytes[..8].copy_from_slice(&first.to_be_bytes());
    bytes[8..16].copy_from_slice(&second.to_be_bytes());
    bytes[16..24].copy_from_slice(&third.to_be_bytes());
    bytes[24..].copy_from_slice(&fourth.to_be_bytes());
}
