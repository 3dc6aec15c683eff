// The event at the front of some bytes, or why there is none.
ghost use Rattle.std.specs.Prelude.{◌≡◌, ◌≤◌, false, true, cond, ltb, length, MatchOption, Ok, Err};
ghost use Rattle.parts.specs.declared.refusal.Refusal.TheVariants.{SampleRange, StartRange};
ghost use Rattle.trace.specs.Event.{kind_number, sample_limit};
ghost use Rattle.trace.specs.Read.{known_kind, event_length, start_address, parsed_event, fields_read, read_of};

use crate::event::{Event, Kind};
use parts::part::{Bus, Part};
use parts::refusal::Refusal;

// Why there is no event, and how far after the kind byte the fault lies.
pub type Fault = (Refusal, usize);

// A whole event and how many bytes it takes, or the fault.
pub type Read = Result<(Event, usize), Fault>;

// The kind of a byte, if it is one that can happen on the bus.
fn kind_on(bus: Bus, byte: u8) -> Option<Kind>
    ensures { MatchOption result (known_kind bus byte ≡ false) (λ kind. (known_kind bus byte ≡ true) × (kind_number kind ≡ byte)) }
{
    match byte {
        1 if bus == Bus::Spi => Some(Kind::SpiPowerOn),
        2 if bus == Bus::I2c => Some(Kind::I2cPowerOn),
        3 => Some(Kind::PowerOff),
        4 => Some(Kind::Sample),
        5 => Some(Kind::Expected),
        _ => None,
    }
}

// How many bytes an event takes, its kind included.
fn event_length(kind: Kind) -> usize
    ensures { result ≡ event_length (kind_number kind) }
{
    match kind {
        Kind::I2cPowerOn => 5,
        Kind::PowerOff => 1,
        Kind::SpiPowerOn | Kind::Sample | Kind::Expected => 2,
    }
}

// The three bytes of a start address.
fn start_address(high: u8, middle: u8, low: u8) -> u32
    ensures { result ≡ start_address high middle low }
{
    u32::from_be_bytes([0, high, middle, low])
}

// The event of this kind, whose bytes are all there.
fn parsed_event(kind: Kind, bytes: &[u8]) -> Event
    requires { event_length (kind_number kind) ≤ length bytes.now }
    ensures { result ≡ parsed_event (kind_number kind) bytes.now }
{
    match kind {
        Kind::SpiPowerOn => Event::SpiPowerOn { sample: bytes[1] },
        Kind::I2cPowerOn => Event::I2cPowerOn {
            sample: bytes[1],
            start: start_address(bytes[2], bytes[3], bytes[4]),
        },
        Kind::PowerOff => Event::PowerOff,
        Kind::Sample => Event::Sample { sample: bytes[1] },
        Kind::Expected => Event::Expected { answer: bytes[1] },
    }
}

// Number 6, at the byte right after the kind.
fn check_sample(bus: Bus, sample: u8) -> Result<(), Fault>
    ensures { result ≡ cond (ltb sample (sample_limit bus)) (Ok tt) (Err (SampleRange, 1)) }
{
    if sample < crate::event::sample_limit(bus) {
        Ok(())
    } else {
        Err((Refusal::SampleRange, 1))
    }
}

// Number 10, after the sample.
fn check_start(part: Part, start: u32) -> Result<(), Fault>
    ensures { result ≡ cond (ltb start part.size) (Ok tt) (Err (StartRange, 2)) }
{
    if start < part.size {
        Ok(())
    } else {
        Err((Refusal::StartRange, 2))
    }
}

// An event whose bytes are all there: 6, 10 and 11, each at the first byte of its field. One match on the kind, and not one for each
// test: so the compiler keeps the loops over samples, which it puts into the same function, as quick as they are.
fn read_fields(part: Part, event: Event, taken: usize) -> Read
    ensures { result ≡ fields_read part event taken }
{
    match event {
        Event::SpiPowerOn { sample } | Event::Sample { sample } => check_sample(part.bus, sample)?,
        Event::I2cPowerOn { sample, start } => {
            check_sample(part.bus, sample)?;
            check_start(part, start)?;
        }
        Event::PowerOff => {}
        Event::Expected { answer } => {
            if answer >= 3 {
                return Err((Refusal::ExpectedRange, 1));
            }
        }
    }
    Ok((event, taken))
}

// Refused with 4 or 5, tested in that order, at the kind byte; else by the fields. Bytes after the event are ignored.
#[tactic(auto, unfolding(crate::specs::Read::read_of))]
pub fn read_event(part: Part, bytes: &[u8]) -> Read
    ensures { result ≡ read_of part bytes.now }
{
    let byte = *bytes.first().ok_or((Refusal::Truncated, 0))?;
    let kind = kind_on(part.bus, byte).ok_or((Refusal::UnknownKind, 0))?;
    let taken = event_length(kind);
    if bytes.len() < taken {
        return Err((Refusal::Truncated, 0));
    }
    let event = parsed_event(kind, bytes);
    read_fields(part, event, taken)
}
