// What happens between two samples: START, STOP or an edge of SCL. The `edge_of` of `selection` is another rule: CS# and HOLD# decide there.
ghost use Rattle.std.specs.Prelude.{◌≡◌};
ghost use Rattle.transfer.specs.Edge.{line_of, edge_of};

use crate::levels::Levels;

#[derive(Clone, Copy, Debug, PartialEq, Eq)]
pub enum Edge {
    Start,
    Stop,
    // SCL rises, with the line's level
    Rise { line: bool },
    // SCL falls
    Fall,
    Quiet,
}

// The line's level: high only if nobody holds it low, neither the part nor the others.
pub fn line_of(sda: bool, pulling: bool) -> bool
    ensures { result ≡ line_of sda pulling }
{
    sda && !pulling
}

// With SCL 1 in both samples the line tells; else SCL does.
pub fn edge_of(pulling: bool, before: Levels, after: Levels) -> Edge
    ensures { result ≡ edge_of pulling before after }
{
    let was = line_of(before.sda, pulling);
    let line = line_of(after.sda, pulling);
    match (before.scl, after.scl) {
        (true, true) => match (was, line) {
            (true, false) => Edge::Start,
            (false, true) => Edge::Stop,
            _ => Edge::Quiet,
        },
        (true, false) => Edge::Fall,
        (false, true) => Edge::Rise { line },
        (false, false) => Edge::Quiet,
    }
}
