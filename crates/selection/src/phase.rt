// The phases of an SPI part, which say what it waits for, each with the numbers that it needs.
ghost use Rattle.std.specs.Prelude.{◌≡◌};
ghost use Rattle.selection.specs.Phase.{width};

use parts::part::Part;

// The bits that come in.
#[derive(Clone, Copy, Debug, PartialEq, Eq)]
pub enum Field {
    Opcode,
    ReadAddress,
    FastAddress,
    WriteAddress,
    // FSTRD's eight bits between the address and the output
    Dummy { address: u32 },
    // a data byte of WRITE; whole: one has been taken already in this selection
    Data { address: u32, whole: bool },
    // the first data byte of WRSR
    StatusByte,
}

// Where the bits that go out come from.
#[derive(Clone, Copy, Debug, PartialEq, Eq)]
pub enum Source {
    Memory { address: u32 },
    Register,
    // 3 is past the last identity byte
    Identity { index: u8 },
}

// What is done when CS# rises.
#[derive(Clone, Copy, Debug, PartialEq, Eq)]
pub enum Action {
    SetLatch,
    ClearLatch,
    FallAsleep,
    WriteStatus { byte: u8 },
}

#[derive(Clone, Copy, Debug, PartialEq, Eq)]
pub enum Phase {
    // no selection
    Rest,
    // ignores the bus until CS# rises: drives, stores and sets nothing (document 01: deaf)
    Ignoring,
    // count bits of a field are in, and make value
    Taking { field: Field, count: u8, value: u32 },
    // the next counted fall shows bit 7 - bit
    Showing { source: Source, bit: u8 },
    Waiting { action: Action },
    // a finished data byte of WRITE, which is stored at the next counted rise or as CS# rises: on a part that stores late
    Pending { byte: u8, address: u32 },
}

// How many bits a field has.
pub fn width(part: Part, field: Field) -> u8
    ensures { result ≡ width part field }
{
    match field {
        Field::ReadAddress | Field::FastAddress | Field::WriteAddress => part.width,
        Field::Opcode | Field::Dummy { .. } | Field::Data { .. } | Field::StatusByte => 8,
    }
}
