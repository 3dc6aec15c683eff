// How far a run has come.
ghost use Rattle.std.specs.Prelude.{◌≡◌, ◌≤◌, ◌+◌, length, drop};
ghost use Rattle.events.specs.Flag.{flag_at};
ghost use Rattle.samples.specs.Bound.{latest};
ghost use Rattle.samples.specs.Samples.{first_sample};

use chip::model::Model;
use trace::event::Kind;

// State, how many events are accepted, how many bytes of the trace these take, and the offset of the first flagged one, which is the
// length of the trace if there is none: no Option, since definitions and C count it so, and each edge would make it a number again.
#[derive(Clone, Copy, Debug, PartialEq, Eq)]
pub struct Progress {
    pub model: Model,
    pub count: usize,
    pub offset: usize,
    pub flag: usize,
}

// The offset of the first flagged event of a trace of this length, once the event at offset is taken, flagged or not.
pub fn flag_at(length: usize, flag: usize, offset: usize, flagged: bool) -> usize
    ensures { result ≡ flag_at length flag offset flagged }
{
    if flagged && flag == length {
        offset
    } else {
        flag
    }
}

// The offset at which consecutive samples end at the latest, from `start` on and after `first` accepted events: there is no quota left, or
// no room for one more in a trace of this length.
pub fn latest(length: usize, quota: usize, first: usize, start: usize) -> usize
    requires { start ≤ length }
    ensures { result ≡ latest length quota first start }
{
    let room = (length - start) / 2;
    start + 2 * quota.saturating_sub(first).min(room)
}

// The sample that the event at offset amounts to, after the sample last: an expected answer that holds changes nothing.
pub fn first_sample(trace: &[u8], offset: usize, last: u8) -> u8
    requires { offset + 2 ≤ length trace.now }
    ensures { result ≡ first_sample last (drop offset trace.now) }
{
    if trace[offset] == Kind::Sample as u8 {
        trace[offset + 1]
    } else {
        last
    }
}
