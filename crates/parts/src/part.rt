// The five parts: a constant table with all that differs from part to part.
ghost use Rattle.std.specs.Prelude.{◌≡◌, ◌<◌};
ghost use Rattle.parts.specs.Table.{is_spi, part_of};

#[derive(Clone, Copy, Debug, PartialEq, Eq)]
pub enum Bus {
    Spi,
    I2c,
}

impl Bus {
    pub fn is_spi(self) -> bool
        ensures { result ≡ is_spi self }
    {
        self == Bus::Spi
    }
}

#[derive(Clone, Copy, Debug, PartialEq, Eq)]
pub struct Part {
    pub bus: Bus,
    // bytes of memory
    pub size: u32,
    // bits of an address
    pub width: u8,
    // whether the device address word carries A16
    pub a16: bool,
    // settings of the address pins
    pub pins: u8,
    // commands besides the six
    pub fstrd: bool,
    pub rdid: bool,
    pub sleep: bool,
    // what RDID shows
    pub identity: [u8; 3],
    // whether SRWD, BP1 and BP0 survive power loss
    pub saved: bool,
    // whether a finished data byte of WRITE waits, to be stored at the next counted rise or as CS# rises
    pub late: bool,
}

// In the order of the part numbers.
pub const PARTS: [Part; 5] = [
    // MR45V032A, sheet 003
    Part {
        bus: Bus::Spi,
        size: 4096,
        width: 16,
        a16: false,
        pins: 1,
        fstrd: false,
        rdid: false,
        sleep: false,
        identity: [0, 0, 0],
        saved: false,
        late: false,
    },
    // MR45V100A, sheet 000
    Part {
        bus: Bus::Spi,
        size: 131072,
        width: 24,
        a16: false,
        pins: 1,
        fstrd: true,
        rdid: true,
        sleep: true,
        identity: [0xae, 0x83, 0x9],
        saved: true,
        late: true,
    },
    // MR45V200B, sheet 004
    Part {
        bus: Bus::Spi,
        size: 262144,
        width: 24,
        a16: false,
        pins: 1,
        fstrd: false,
        rdid: true,
        sleep: false,
        identity: [0xae, 0x83, 0x1a],
        saved: true,
        late: false,
    },
    // MR44V064B, sheet 001
    Part {
        bus: Bus::I2c,
        size: 8192,
        width: 16,
        a16: false,
        pins: 8,
        fstrd: false,
        rdid: false,
        sleep: false,
        identity: [0, 0, 0],
        saved: false,
        late: false,
    },
    // MS85RC1MTY, sheet 002
    Part {
        bus: Bus::I2c,
        size: 131072,
        width: 17,
        a16: true,
        pins: 4,
        fstrd: false,
        rdid: false,
        sleep: false,
        identity: [0, 0, 0],
        saved: false,
        late: false,
    },
];

// The part of a number below 5. The rows are read from a static: of a constant the whole table would be written down anew at each call,
// since the number is known only when it runs.
pub fn part_of(number: usize) -> Part
    requires { number < 5 }
    ensures { result ≡ part_of number }
{
    static ROWS: [Part; 5] = PARTS;
    ROWS[number]
}
