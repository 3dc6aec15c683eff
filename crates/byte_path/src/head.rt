// The bytes of a selection before its data: opcode, address, the dummy byte of FSTRD, the data byte of WRSR.
ghost use Rattle.std.specs.Prelude.{◌≡◌, true, ◌++◌, ◌≤◌, length, drop, replicate};
ghost use Rattle.selection.specs.declared.phase.Phase.TheVariants as Phase;
ghost use Rattle.byte_path.specs.ByBytes.{phase_after_byte};
ghost use Rattle.byte_path.specs.Head.{head_field, is_head, head_from, Bordered};

use parts::part::Part;
use selection::phase::{Field, Phase};

// The phase in which the head has been taken, and how many bytes it had.
#[derive(Clone, Copy, Debug, PartialEq, Eq)]
pub struct Head {
    pub phase: Phase,
    pub at: usize,
}

fn head_field(field: Field) -> bool
    ensures { result ≡ head_field field }
{
    !matches!(field, Field::Data { .. })
}

fn is_head(phase: Phase) -> bool
    ensures { result ≡ is_head phase }
{
    matches!(phase, Phase::Taking { field, .. } if head_field(field))
}

// Eight bits more of a field.
fn field_after(part: Part, field: Field, count: u8, value: u32, byte: u8) -> Phase
    requires { Bordered part (Phase.Taking field count value) }
    ensures { result ≡ phase_after_byte part (Phase.Taking field count value) byte }
{
    let more = 256 * value + u32::from(byte);
    let taken = count + 8;
    if taken < selection::phase::width(part, field) {
        Phase::Taking {
            field,
            count: taken,
            value: more,
        }
    } else {
        selection::rise::phase_after_field(part, field, more)
    }
}

fn after_byte(part: Part, phase: Phase, byte: u8) -> Phase
    requires { Bordered part phase × (is_head phase ≡ true) }
    ensures { result ≡ phase_after_byte part phase byte }
{
    match phase {
        Phase::Taking {
            field,
            count,
            value,
        } => field_after(part, field, count, value, byte),
        // impossible: no other phase takes a byte of a head
        _ => phase,
    }
}

// The head brings nothing back: its bytes are 255.
#[tactic(auto, using(crate::proofs::HeadLaws::bordered_next, crate::proofs::HeadLaws::head_on, crate::proofs::HeadLaws::quiet_on))]
pub fn head_of(part: Part, first: Phase, input: &[u8], output: &mut [u8]) -> Head
    requires { Bordered part first × (length input.now ≤ length output.old) }
    ensures head { result ≡ head_from part first input.now }
    ensures output { output.new ≡ replicate (head_from part first input.now).at 255 ++ drop (head_from part first input.now).at output.old }
{
    let mut phase = first;
    for (at, byte) in input.iter().enumerate() {
        if !is_head(phase) {
            return Head { phase, at };
        }
        phase = after_byte(part, phase, *byte);
        output[at] = 255;
    }
    Head {
        phase,
        at: input.len(),
    }
}
