// The bytes of a selection after its head: what they bring back, what they store, and the phase in which CS# then rises.
ghost use Rattle.std.specs.Prelude.{◌≡◌, cond, ◌+◌, ◌<◌, ltb, length, get_or};
ghost use Rattle.byte_path.specs.PinPath.{bytes_of, driven_count};
ghost use Rattle.byte_rest.specs.Rest.{shown_from, rest_back, identity_from, rest_memory, phase_end};
ghost use Rattle.parts.specs.Status.{protected_start};
ghost use Rattle.selection.specs.Ranges.{SourceIn, PhaseIn};

use parts::part::Part;
use parts::status::Status;
use selection::phase::{Field, Phase, Source};

fn identity_byte(part: Part, index: u8) -> u8
    ensures { result ≡ cond (ltb index 3) (get_or part.identity index 0) 255 }
{
    part.identity
        .get(usize::from(index))
        .copied()
        .unwrap_or(255)
}

fn next_index(index: u8) -> u8
    ensures { result ≡ cond (ltb index 3) (index + 1) index }
{
    if index < 3 { index + 1 } else { index }
}

// An identity from byte number `first` on, and 255 past its third byte.
fn show_identity(part: Part, first: u8, output: &mut [u8])
    ensures { output.new ≡ identity_from part.identity first (length output.old) }
{
    let mut index = first;
    for byte in output.iter_mut() {
        *byte = identity_byte(part, index);
        index = next_index(index);
    }
}

// What is shown fills the buffer; how many of its bytes are driven.
fn show_source(
    part: Part,
    status: Status,
    source: Source,
    memory: &[u8],
    output: &mut [u8],
) -> usize
    requires { SourceIn part source × (length memory.now ≡ part.size) }
    ensures output { output.new ≡ bytes_of (shown_from part status memory.now source (length output.old)) }
    ensures count { result ≡ driven_count (shown_from part status memory.now source (length output.old)) }
{
    let length = output.len();
    match source {
        Source::Memory { address } => {
            rolled_read::read_rolled(memory, address as usize, output);
            length
        }
        Source::Register => {
            output.fill(status.byte());
            length
        }
        Source::Identity { index } => {
            show_identity(part, index, output);
            usize::from(3 - index).min(length)
        }
    }
}

// What the bytes after the head bring back; how many are driven.
// A report's `show` is another thing: a run as text.
pub fn show(part: Part, status: Status, phase: Phase, memory: &[u8], output: &mut [u8]) -> usize
    requires { PhaseIn part phase × (length memory.now ≡ part.size) }
    ensures output { output.new ≡ bytes_of (rest_back part status memory.now phase (length output.old)) }
    ensures count { result ≡ driven_count (rest_back part status memory.now phase (length output.old)) }
{
    match phase {
        Phase::Showing { source, .. } => show_source(part, status, source, memory, output),
        _ => {
            output.fill(255);
            0
        }
    }
}

// What they store: data bytes of WRITE, if WEL is set.
// On I2C (`i2c_samples`) another rule: the ninth rise stores one byte, by WP, with no register.
pub fn store(part: Part, status: Status, phase: Phase, input: &[u8], memory: &mut [u8])
    requires { PhaseIn part phase × (length memory.old ≡ part.size) }
    ensures { memory.new ≡ rest_memory part status memory.old phase input.now }
{
    if let Phase::Taking {
        field: Field::Data { address, .. },
        ..
    } = phase
        && status.wel
    {
        let start = status.protected_start(part);
        rolled_write::write_rolled(memory, address as usize, start as usize, input);
    }
}

// The phase in which CS# rises, as far as it counts: whether there was a byte after the head.
pub fn end_phase(phase: Phase, some: bool) -> Phase
    ensures { result ≡ phase_end phase some }
{
    match phase {
        Phase::Taking {
            field: Field::Data { address, .. },
            count,
            value,
        } if some => Phase::Taking {
            field: Field::Data {
                address,
                whole: true,
            },
            count,
            value,
        },
        _ => phase,
    }
}
