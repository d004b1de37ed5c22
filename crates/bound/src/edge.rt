// Fractions: a bound is open, or a whole number marked "at most" or "under".
ghost use Rattle.std.specs.Prelude.{◌≡◌, refl};
ghost use Rattle.std.proofs.Common.{rules};
ghost use Rattle.std.specs.Ordering.{as_partial_cmp};
ghost use Rattle.std.specs.Cmp.{po};
ghost use Rattle.std.specs.Cmp.Rules.{comparing};
ghost use Rattle.bound.specs.Orders.{edge_cmp, edge_total};
ghost use Rattle.bound.specs.Edges.{edge_meaning};
ghost use Rattle.bound.specs.Edging;

use crate::Bound;
use crate::sizes::{in_range, within_reach};
use std::cmp::Ordering;

// In order from the tighter.
#[derive(Clone, Copy, PartialEq, Eq, PartialOrd, Ord, Debug)]
pub enum Mark {
    Under,
    AtMost,
}

// The mark stands before the number, since fields lie in the order of the source: behind the number it would make
// each bound, and so each table, half as large again. The open one stands first, as Tick's does. The order has the
// number first and the open one last, so it is not derived.
#[derive(Clone, Copy, PartialEq, Eq, Debug)]
pub enum Edge {
    Open,
    Number(Mark, i64),
}

// In order from the tightest: by the number, then by the mark, with the open one last.
impl Ord for Edge {
    ghost cmp = { edge_cmp };

    ghost total = { edge_total };

    ghost matches_partial_cmp = { λ x y. refl };

    ghost matches_eq = { Prim.search (comparing, rules) };

    fn cmp(&self, other: &Edge) -> Ordering {
        match (*self, *other) {
            (Edge::Open, Edge::Open) => Ordering::Equal,
            (Edge::Open, Edge::Number(_, _)) => Ordering::Greater,
            (Edge::Number(_, _), Edge::Open) => Ordering::Less,
            (Edge::Number(m, a), Edge::Number(n, b)) => a.cmp(&b).then(m.cmp(&n)),
        }
    }
}

impl PartialOrd for Edge {
    ghost partial_cmp = { as_partial_cmp edge_cmp };

    ghost laws = { po edge_total (Prim.search (comparing, rules)) };

    fn partial_cmp(&self, other: &Edge) -> Option<Ordering> {
        Some(self.cmp(other))
    }
}

impl Bound for Edge {
    ghost meaning = { edge_meaning };

    ghost lawful = { Edging.lawful };

    fn written(strict: bool, c: i64) -> Option<Edge> {
        in_range(c).map(|c| Edge::Number(if strict { Mark::Under } else { Mark::AtMost }, c))
    }

    fn open() -> Edge {
        Edge::Open
    }

    // The same line as Tick's: a function over Bound that this calls leads back to this impl, and gets no proof.
    fn sum(self, other: Edge) -> Option<Edge> {
        within_reach(self.size(), other.size()).then(|| self.plus(other))
    }

    fn plus(self, other: Edge) -> Edge {
        match (self, other) {
            (Edge::Number(m, a), Edge::Number(n, b)) => Edge::Number(m.min(n), a + b),
            _ => Edge::Open,
        }
    }

    // As `self <= other` (proofs/Ordered), but by cases, as Tick's. The marks matter only between equal numbers.
    fn tighter(self, other: Edge) -> bool {
        match (self, other) {
            (_, Edge::Open) => true,
            (Edge::Open, Edge::Number(_, _)) => false,
            (Edge::Number(m, a), Edge::Number(n, b)) => a < b || (a == b && m <= n),
        }
    }

    fn size(self) -> u64 {
        match self {
            Edge::Open => 0,
            Edge::Number(_, c) => c.unsigned_abs(),
        }
    }
}

#[cfg(test)]
mod tests {
    use super::Edge::Open;
    use super::*;

    const RANGE: i64 = 17_179_869_184;

    const REACH: i64 = 1_125_899_906_842_624;

    fn le(c: i64) -> Edge
        ensures { result ≡ Edge.Number Mark.AtMost c }
    {
        Edge::Number(Mark::AtMost, c)
    }

    fn lt(c: i64) -> Edge
        ensures { result ≡ Edge.Number Mark.Under c }
    {
        Edge::Number(Mark::Under, c)
    }

    // The values and the answers are this kind's own, and so is the test.
    #[test]
    fn edges(rt: HostRuntime) {
        // strict, the number, what is written
        for (strict, c, written) in [
            (false, RANGE, Some(le(RANGE))),
            (true, -RANGE, Some(lt(-RANGE))),
            (false, RANGE + 1, None),
            (true, -RANGE - 1, None),
        ] {
            assert_eq!(rt; Edge::written(strict, c), written);
        }
        // a, b, their sum, whether a is tighter
        for (a, b, sum, tighter) in [
            (Open, Open, Some(Open), true),
            (Open, lt(REACH), Some(Open), false),
            (lt(REACH), Open, Some(Open), true),
            (le(REACH + 1), Open, None, true),
            (le(4), le(4), Some(le(8)), true),
            (le(4), lt(4), Some(lt(8)), false),
            (lt(4), le(4), Some(lt(8)), true),
            (lt(4), lt(4), Some(lt(8)), true),
            (le(-3), lt(5), Some(lt(2)), true),
            (lt(5), le(-3), Some(lt(2)), false),
            (lt(1), le(REACH - 1), Some(lt(REACH)), true),
            (lt(1), le(REACH), None, true),
            (le(-REACH), le(-1), None, true),
        ] {
            assert_eq!(rt; a.sum(b), sum);
            assert_eq!(rt; a.tighter(b), tighter);
            assert_eq!(rt; a <= b, tighter);
        }
        assert_eq!(rt; lt(5).plus(le(-3)), lt(2));
    }
}
