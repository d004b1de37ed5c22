// Kinds of bound on a difference u − v, as a difference bound matrix (DBM) holds them: the trait with
// its laws, what follows from the laws for every kind, and two kinds, Tick and Edge.
#![tactic(auto)]

ghost use Rattle.std.specs.Prelude.{◌≡◌, ◌+◌, ◌≤◌, true, false, pos, Some};
ghost use Rattle.bound.specs.Meaning.{Meaning, Laws, Both, tighter_of, AllowsZero};

pub mod edge;
mod sizes;
pub mod tick;

pub trait Bound: Copy {
    ghost meaning: { Meaning Self };

    // The bound "< c" if strict, else "≤ c"; none where c lies outside the range. A flag, since a kind need not
    // have marks.
    fn written(strict: bool, c: i64) -> Option<Self>
        ensures { result ≡ meaning.written strict c };

    // The bound that allows every difference.
    fn open() -> Self
        ensures { result ≡ meaning.opened };

    // Allows exactly the sums of what the two allow; none where the two sizes added pass the reach.
    fn sum(self, other: Self) -> Option<Self>
        ensures { result ≡ meaning.sum self other };

    // The sum where the sizes permit: a kind can leave out the test.
    fn plus(self, other: Self) -> Self
        requires { meaning.size_of self + meaning.size_of other ≤ meaning.reach }
        ensures { meaning.sum self other ≡ Some result }
    {
        self.sum(other).unwrap()
    }

    // Whether `other` allows all that `self` allows.
    fn tighter(self, other: Self) -> bool
        ensures { result ≡ meaning.tighter self other };

    // How much of the reach the bound takes up in a sum.
    fn size(self) -> u64
        ensures { result ≡ meaning.size_of self };

    ghost lawful: { Laws meaning };
}

// The bound "≤ 0", which is in range for every kind.
pub fn zero<B: Bound>() -> B
    ensures { B.meaning.written false (pos 0) ≡ Some result }
{
    B::written(false, 0).unwrap()
}

// The tighter of two bounds, which allows what both allow.
#[tactic(auto, using(crate::proofs::Lawful::tighter_else))]
pub fn keep_tighter<B: Bound>(a: B, b: B) -> B
    ensures value { result ≡ tighter_of B.meaning a b }
    ensures both { Both B.meaning a b result }
{
    if a.tighter(b) { a } else { b }
}

// Keeps the tighter of two bounds in place; writes only where that changes it.
#[tactic(auto, using(crate::proofs::Lawful::tighter_else))]
pub fn tighten<B: Bound>(held: &mut B, bound: B)
    ensures value { held.new ≡ tighter_of B.meaning held.old bound }
    ensures both { Both B.meaning held.old bound held.new }
{
    if !held.tighter(bound) {
        *held = bound;
    }
}

// Whether the bound allows the difference 0: it does where it allows all that "≤ 0" does.
#[tactic(auto, using(crate::proofs::Lawful::zero_tighter, crate::proofs::Lawful::zero_not_tighter))]
pub fn allows_zero<B: Bound>(bound: B) -> bool
    ensures yes { result ≡ true → AllowsZero B.meaning bound }
    ensures no { result ≡ false → AllowsZero B.meaning bound → ⊥ }
{
    zero::<B>().tighter(bound)
}

#[cfg(test)]
mod tests {
    use super::*;
    use crate::edge::{Edge, Mark};
    use crate::tick::Tick;

    #[test]
    fn tightest(rt: HostRuntime) {
        let mut held = Edge::Number(Mark::AtMost, 0);
        assert!(rt; allows_zero(held));
        tighten(&mut held, Edge::Open);
        assert_eq!(rt; held, zero());
        tighten(&mut held, Edge::Number(Mark::Under, 0));
        assert_eq!(rt; held, Edge::Number(Mark::Under, 0));
        assert!(rt; !allows_zero(held));
        assert_eq!(rt; keep_tighter(Tick::Open, zero()), Tick::AtMost(0));
        assert_eq!(rt; keep_tighter(Tick::AtMost(-1), zero()), Tick::AtMost(-1));
    }
}
