// The tags of the phases, as docs/IMAGE.md lists them. The first digit tells what the part does: 1 takes bits in, 2 gives them out, 3 waits.
// Constants and no enum: the tag is a byte of an image, which may be any, and the enum that goes by it is the phase itself.

pub const REST: u8 = 0x00;

pub const IGNORING: u8 = 0x01;

// of an SPI part
pub const OPCODE: u8 = 0x10;

pub const READ_ADDRESS: u8 = 0x11;

pub const FAST_ADDRESS: u8 = 0x12;

pub const WRITE_ADDRESS: u8 = 0x13;

pub const DUMMY: u8 = 0x14;

pub const DATA: u8 = 0x15;

pub const STATUS_BYTE: u8 = 0x16;

pub const MEMORY: u8 = 0x20;

pub const REGISTER: u8 = 0x21;

pub const IDENTITY: u8 = 0x22;

pub const SET_LATCH: u8 = 0x30;

pub const CLEAR_LATCH: u8 = 0x31;

pub const FALL_ASLEEP: u8 = 0x32;

pub const WRITE_STATUS: u8 = 0x33;

pub const PENDING: u8 = 0x34;

// of an I2C part
pub const WORD: u8 = 0x18;

pub const HIGH_BYTE: u8 = 0x19;

pub const LOW_BYTE: u8 = 0x1A;

pub const I2C_DATA: u8 = 0x1B;

pub const SENDING: u8 = 0x28;
