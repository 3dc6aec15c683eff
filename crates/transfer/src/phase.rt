// The phases of an I2C part, which say what it waits for, each with the numbers that it needs.

// The byte that comes in.
#[derive(Clone, Copy, Debug, PartialEq, Eq)]
pub enum Field {
    Word,
    // the first address byte, after a write word with this A16
    HighByte { a16: bool },
    // the second address byte, after the first
    LowByte { a16: bool, high: u8 },
    Data { address: u32 },
}

#[derive(Clone, Copy, Debug, PartialEq, Eq)]
pub enum Phase {
    // after STOP or power on: waits for START
    Rest,
    // ignores the bus until START or STOP, after another part's word or a transfer that the master ended (document 01: deaf)
    Ignoring,
    // count rises of nine are in, whose first eight bits make value
    Taking { field: Field, count: u8, value: u32 },
    // the byte at an address goes out, count rises of nine are in
    Sending { address: u32, count: u8 },
}
