// A program that takes standard input as a trace and runs it on a part: reads, shows, prints.
#![tactic(auto)]

ghost use Rattle.std.specs.Prelude.{◌≡◌};
ghost use Rattle.report.specs.Report.{memory_after_run};

// the descriptors of standard input and output
const STDIN_FILENO: i32 = 0;

const STDOUT_FILENO: i32 = 1;

// Prints the answers of the accepted events, then number, count and offset on a line of their own.
pub fn serve(part: u32, memory: &mut [u8]) {
    let mut input = [0u8; 65537];
    let length = io::read_full(STDIN_FILENO, &mut input);
    print(part, &input[..length], memory);
}

// The same for bytes at hand.
pub fn print(part: u32, trace: &[u8], memory: &mut [u8])
    ensures { memory.new ≡ memory_after_run part trace.now memory.old }
{
    // 65,536 answers and 1,024 line ends: the longest text there is
    let mut out = [0u8; 66560];
    let Some(report) = report::show::show(part, trace, memory, &mut out) else {
        io::write_all(STDOUT_FILENO, b"too long\n");
        return;
    };
    if report.length <= 66560 {
        let shown = io::count(report.length as isize, &out);
        io::write_all(STDOUT_FILENO, &out[..shown]);
    }
    print_figures(
        u64::from(parts::refusal::number_of(report.refusal)),
        report.count as u64,
        report.offset as u64,
    );
}

// The last line.
fn print_figures(number: u64, count: u64, offset: u64) {
    io::print_decimal(STDOUT_FILENO, number);
    io::write_all(STDOUT_FILENO, b" ");
    io::print_decimal(STDOUT_FILENO, count);
    io::write_all(STDOUT_FILENO, b" ");
    io::print_decimal(STDOUT_FILENO, offset);
    io::write_all(STDOUT_FILENO, b"\n");
}
