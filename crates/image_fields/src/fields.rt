// The fields of an image, before they are bytes.
ghost use Rattle.std.specs.Prelude.{◌≡◌};
ghost use Rattle.image_fields.specs.Fields.{only_tag};

// The power of an image: none, or the kind of the power on. A byte of an image may be any, so it is kept as one.
pub const POWER_OFF: u8 = 0;

pub const POWER_SPI: u8 = 1;

pub const POWER_I2C: u8 = 2;

// What the part waits for.
#[derive(Clone, Copy, Debug, PartialEq, Eq)]
pub struct PhaseFields {
    pub tag: u8,
    pub count: u8,
    pub value: u32,
    pub address: u32,
    pub detail: u8,
}

#[derive(Clone, Copy, Debug, PartialEq, Eq)]
pub struct Fields {
    pub part: u8,
    pub pins: u8,
    pub status: u8,
    pub power: u8,
    pub last: u8,
    pub driven: u8,
    pub asleep: u8,
    pub phase: PhaseFields,
    pub buffer: u32,
    pub used: u8,
}

impl PhaseFields {
    // A phase that has no numbers.
    pub fn only_tag(tag: u8) -> PhaseFields
        ensures { result ≡ only_tag tag }
    {
        PhaseFields {
            tag,
            count: 0,
            value: 0,
            address: 0,
            detail: 0,
        }
    }
}
