// What happens between two samples: a selection begins or ends, or SCK has an edge that counts.
ghost use Rattle.std.specs.Prelude.{◌≡◌};
ghost use Rattle.selection.specs.Edge.{edge_of, clock_edge};

use crate::levels::Levels;

#[derive(Clone, Copy, Debug, PartialEq, Eq)]
pub enum Edge {
    // CS# falls
    Select,
    // CS# rises
    Deselect,
    // a counted rise of SCK, with the bit that enters
    Rise { si: bool },
    // a counted fall of SCK
    Fall,
    Quiet,
}

pub fn edge_of(before: Levels, now: Levels) -> Edge
    ensures { result ≡ edge_of before now }
{
    match (before.cs, now.cs) {
        (true, false) => Edge::Select,
        (false, true) => Edge::Deselect,
        (false, false) => clock_edge(before, now),
        (true, true) => Edge::Quiet,
    }
}

// Of a part that is selected in both samples: an edge of SCK counts if HOLD# is 1 in both.
pub fn clock_edge(before: Levels, now: Levels) -> Edge
    ensures { result ≡ clock_edge before.hold now.hold before.sck now.sck now.si }
{
    if !(before.hold && now.hold) {
        return Edge::Quiet;
    }
    match (before.sck, now.sck) {
        (false, true) => Edge::Rise { si: now.si },
        (true, false) => Edge::Fall,
        _ => Edge::Quiet,
    }
}
