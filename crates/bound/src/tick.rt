// Whole ticks: a bound is open or a number, since "< c" is "≤ c − 1".
ghost use Rattle.std.specs.Prelude.{◌≡◌, refl};
ghost use Rattle.std.proofs.Common.{rules};
ghost use Rattle.std.specs.Ordering.{as_partial_cmp};
ghost use Rattle.std.specs.Cmp.{po};
ghost use Rattle.std.specs.Cmp.Rules.{comparing};
ghost use Rattle.bound.specs.Orders.{tick_cmp, tick_total};
ghost use Rattle.bound.specs.Ticks.{tick_meaning};
ghost use Rattle.bound.specs.Ticking;

use crate::Bound;
use crate::sizes::{in_range, within_reach};
use std::cmp::Ordering;

// The open one stands first, so that a table of open bounds is all zero bytes, and is cleared as such. In the order
// it is the last, so the order is not derived.
#[derive(Clone, Copy, PartialEq, Eq, Debug)]
pub enum Tick {
    Open,
    AtMost(i64),
}

// In order from the tightest, with the open one last.
impl Ord for Tick {
    ghost cmp = { tick_cmp };

    ghost total = { tick_total };

    ghost matches_partial_cmp = { λ x y. refl };

    ghost matches_eq = { Prim.search (comparing, rules) };

    fn cmp(&self, other: &Tick) -> Ordering {
        match (*self, *other) {
            (Tick::Open, Tick::Open) => Ordering::Equal,
            (Tick::Open, Tick::AtMost(_)) => Ordering::Greater,
            (Tick::AtMost(_), Tick::Open) => Ordering::Less,
            (Tick::AtMost(a), Tick::AtMost(b)) => a.cmp(&b),
        }
    }
}

impl PartialOrd for Tick {
    ghost partial_cmp = { as_partial_cmp tick_cmp };

    ghost laws = { po tick_total (Prim.search (comparing, rules)) };

    fn partial_cmp(&self, other: &Tick) -> Option<Ordering> {
        Some(self.cmp(other))
    }
}

impl Bound for Tick {
    ghost meaning = { tick_meaning };

    ghost lawful = { Ticking.lawful };

    fn written(strict: bool, c: i64) -> Option<Tick> {
        in_range(c).map(|c| Tick::AtMost(if strict { c - 1 } else { c }))
    }

    fn open() -> Tick {
        Tick::Open
    }

    // The same line as Edge's: a function over Bound that this calls leads back to this impl, and gets no proof.
    fn sum(self, other: Tick) -> Option<Tick> {
        within_reach(self.size(), other.size()).then(|| self.plus(other))
    }

    fn plus(self, other: Tick) -> Tick {
        match (self, other) {
            (Tick::AtMost(a), Tick::AtMost(b)) => Tick::AtMost(a + b),
            _ => Tick::Open,
        }
    }

    // As `self <= other` (proofs/Ordered), but by cases, which takes fewer instructions.
    fn tighter(self, other: Tick) -> bool {
        match (self, other) {
            (_, Tick::Open) => true,
            (Tick::Open, Tick::AtMost(_)) => false,
            (Tick::AtMost(a), Tick::AtMost(b)) => a <= b,
        }
    }

    fn size(self) -> u64 {
        match self {
            Tick::Open => 0,
            Tick::AtMost(c) => c.unsigned_abs(),
        }
    }
}

#[cfg(test)]
mod tests {
    use super::Tick::{AtMost, Open};
    use super::*;

    const RANGE: i64 = 17_179_869_184;

    const REACH: i64 = 1_125_899_906_842_624;

    // The values and the answers are this kind's own, and so is the test.
    #[test]
    fn ticks(rt: HostRuntime) {
        // strict, the number, what is written
        for (strict, c, written) in [
            (false, RANGE, Some(AtMost(RANGE))),
            (true, -RANGE, Some(AtMost(-RANGE - 1))),
            (false, RANGE + 1, None),
            (true, -RANGE - 1, None),
        ] {
            assert_eq!(rt; Tick::written(strict, c), written);
        }
        // a, b, their sum, whether a is tighter
        for (a, b, sum, tighter) in [
            (Open, Open, Some(Open), true),
            (Open, AtMost(REACH), Some(Open), false),
            (AtMost(REACH), Open, Some(Open), true),
            (AtMost(REACH + 1), Open, None, true),
            (AtMost(5), AtMost(-3), Some(AtMost(2)), false),
            (AtMost(4), AtMost(4), Some(AtMost(8)), true),
            (AtMost(1), AtMost(REACH - 1), Some(AtMost(REACH)), true),
            (AtMost(1), AtMost(REACH), None, true),
            (AtMost(-REACH), AtMost(-1), None, true),
        ] {
            assert_eq!(rt; a.sum(b), sum);
            assert_eq!(rt; a.tighter(b), tighter);
            assert_eq!(rt; a <= b, tighter);
        }
        assert_eq!(rt; AtMost(5).plus(AtMost(-3)), AtMost(2));
    }
}
