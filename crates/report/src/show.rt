// A trace, run on a model just made.
ghost use Rattle.std.specs.Prelude.{◌≡◌, length, replicate};
ghost use Rattle.std.proofs.lemmas.List.Edits.{sets};
ghost use Rattle.report.specs.Report.{printed_of, report_of, text_of, memory_after_run};

use parts::refusal::Refusal;

// What the run gave; the text of its answers has length bytes.
#[derive(Clone, Copy, Debug, PartialEq, Eq)]
pub struct Report {
    pub refusal: Option<Refusal>,
    pub count: usize,
    pub offset: usize,
    pub length: usize,
}

// Room for the answers of the longest trace.
fn no_answers() -> [u8; 65536]
    ensures { result ≡ replicate 65536 0 }
{
    [0; 65536]
}

// Runs a trace on a part made with pins and bits 0, and writes the text of the answers to the front of out, as far as there is
// room. Of a trace that is too long there is none, and nothing is run.
pub fn show(part: u32, trace: &[u8], memory: &mut [u8], out: &mut [u8]) -> Option<Report>
    ensures report { printed_of result ≡ report_of part trace.now memory.old }
    ensures memory { memory.new ≡ memory_after_run part trace.now memory.old }
    ensures text { out.new ≡ sets out.old 0 (text_of part trace.now memory.old) }
{
    if trace.len() > 65536 {
        return None;
    }
    let mut answers = no_answers();
    let ran = made::replay_made(part, 0, 0, trace, usize::MAX, memory, &mut answers);
    let length = crate::text::write_text(&answers[..ran.count], out);
    Some(Report {
        refusal: ran.refusal,
        count: ran.count,
        offset: ran.offset,
        length,
    })
}
