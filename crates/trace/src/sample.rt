// Whether the next event is a sample, or an expected answer that holds.
ghost use Rattle.std.specs.Prelude.{◌≡◌, ◌≤◌, ◌+◌, length, drop};
ghost use Rattle.trace.specs.Sample.{stays_first};

use crate::event::Kind;

// Whether at offset there is a sample below limit, or this expected answer: an event that is accepted and leaves power on, where the
// part answers `answer` at present. There are two bytes at least.
pub fn stays_at(trace: &[u8], offset: usize, limit: u8, answer: u8) -> bool
    requires { offset + 2 ≤ length trace.now }
    ensures { result ≡ stays_first limit answer (drop offset trace.now) }
{
    let kind = trace[offset];
    let value = trace[offset + 1];
    // an if for each kind: as one expression it was worked out whole at each event
    if kind == Kind::Sample as u8 {
        return value < limit;
    }
    if kind == Kind::Expected as u8 {
        value == answer
    } else {
        false
    }
}
