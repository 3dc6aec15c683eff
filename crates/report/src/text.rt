// Answers as text, 64 to a line.
ghost use Rattle.std.specs.Prelude.{◌≡◌, ◌+◌, ◌<◌, ◌≤◌, [], length};
ghost use Rattle.std.proofs.lemmas.List.Edits.{sets};
ghost use Rattle.report.specs.Text.{letter, piece, next_column, text};

// The last column of a line.
const LAST: usize = 63;

fn letter_of(answer: u8) -> u8
    ensures { result ≡ letter answer }
{
    match answer {
        0 => b'0',
        1 => b'1',
        _ => b'Z',
    }
}

// One answer at a column; the place after it.
fn write_piece(out: &mut [u8], at: usize, column: usize, answer: u8) -> usize
    requires { at < 1000000 }
    ensures place { result ≡ at + length (piece column answer) }
    ensures text { out.new ≡ sets out.old at (piece column answer) }
{
    let letter = letter_of(answer);
    samples::note::note(&mut *out, at, letter);
    if column == LAST {
        samples::note::note(&mut *out, at + 1, b'\n');
        return at + 2;
    }
    at + 1
}

fn next_column(column: usize) -> usize
    requires { column < 64 }
    ensures { (result ≡ next_column column) × (result < 64) }
{
    if column == LAST { 0 } else { column + 1 }
}

// The end of the last line, if it holds something; the place after it.
fn close_line(out: &mut [u8], at: usize, column: usize) -> usize
    requires { at < 1000000 }
    ensures place { result ≡ at + length (text column []) }
    ensures text { out.new ≡ sets out.old at (text column []) }
{
    if column == 0 {
        return at;
    }
    samples::note::note(&mut *out, at, b'\n');
    at + 1
}

// The text of answers to the front of out, as far as there is room; how many bytes the text has.
pub fn write_text(answers: &[u8], out: &mut [u8]) -> usize
    requires { length answers.now ≤ 65536 }
    ensures length { result ≡ length (text 0 answers.now) }
    ensures text { out.new ≡ sets out.old 0 (text 0 answers.now) }
{
    let mut at = 0;
    let mut column = 0;
    for answer in answers {
        at = write_piece(&mut *out, at, column, *answer);
        column = next_column(column);
    }
    close_line(&mut *out, at, column)
}
