// The kinds that scripts are run in.
use bound::Bound;
use bound::edge::{Edge, Mark};
use bound::tick::Tick;
use std::fmt;

// A kind with what a script says of its bounds.
pub trait Kind: Bound + PartialEq {
    // "At most 7", which every place of a table holds before the first call.
    fn filler() -> Self;

    // The sign and the number, where the bound is not open.
    fn parts(self) -> Option<(&'static str, i64)>;
}

impl Kind for Tick {
    fn filler() -> Tick {
        Tick::AtMost(7)
    }

    fn parts(self) -> Option<(&'static str, i64)> {
        match self {
            Tick::Open => None,
            Tick::AtMost(c) => Some(("<=", c)),
        }
    }
}

impl Kind for Edge {
    fn filler() -> Edge {
        Edge::Number(Mark::AtMost, 7)
    }

    fn parts(self) -> Option<(&'static str, i64)> {
        match self {
            Edge::Open => None,
            Edge::Number(Mark::AtMost, c) => Some(("<=", c)),
            Edge::Number(Mark::Under, c) => Some(("<", c)),
        }
    }
}

// A bound to be printed: `open`, `<=c` or `<c`.
#[derive(Clone, Copy)]
pub struct Printed<B: Kind>(pub B);

impl<B: Kind> fmt::Display for Printed<B> {
    fn fmt<W: fmt::Write>(&self, f: &mut fmt::Formatter<W>) -> fmt::Result {
        match self.0.parts() {
            None => write!(f, "open"),
            Some((sign, c)) => write!(f, "{sign}{c}"),
        }
    }
}
