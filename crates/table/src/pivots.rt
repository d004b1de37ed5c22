// One pivot of a square table: every place becomes the tighter of itself and the way by one node.
ghost use Rattle.std.specs.Prelude.{◌≡◌, ◌+◌, ◌*◌, ◌<◌, ◌≤◌, length};
ghost use Rattle.table.specs.Cells.{at, Only, Holds, Rows, Beyond, relaxed, pivoted};

use crate::cells::row_start;
use bound::{Bound, keep_tighter};

// The tighter of `held` and the sum of the others; `held` where the kind answers no sum.
pub fn relax<B: Bound>(held: B, first: B, second: B) -> B
    ensures { result ≡ relaxed B.meaning held first second }
{
    first
        .sum(second)
        .map_or(held, |sum| keep_tighter(held, sum))
}

// Relaxes `count` places from `base` on, each by `bound` and the place as far from `other` on.
fn sweep<B: Bound>(work: &mut [B], base: usize, other: usize, count: usize, bound: B)
    requires room { (base + count ≤ length work.old) × (other + count ≤ length work.old) }
    requires apart { other < base → other + count ≤ base }
    ensures only { Only B.meaning base count work.old work.new }
    ensures row { Holds B.meaning base count (λ v. relaxed B.meaning (at B.meaning work.old (base + v)) bound (at B.meaning work.old (other + v))) work.new }
{
    // by index, since both rows lie in one slice, and may be the same one
    for v in 0..count {
        work[base + v] = relax(work[base + v], bound, work[other + v]);
    }
}

// Row `u` of a pivot on `p`.
fn pivot_row<B: Bound>(work: &mut [B], side: usize, p: usize, u: usize)
    requires { (u < side) × ((p < side) × ((side ≤ 27) × (side * side ≤ length work.old))) }
    ensures only { Only B.meaning (u * side) side work.old work.new }
    ensures row { Holds B.meaning (u * side) side (pivoted B.meaning side p work.old u) work.new }
{
    let base = row_start(u, side);
    let other = row_start(p, side);
    let bound = work[base + p];
    sweep(work, base, other, side, bound);
}

// A pivot on `p` of the table of that side at the front of `work`; a place stays where the kind answers no sum.
pub fn pivot<B: Bound>(work: &mut [B], side: usize, p: usize)
    requires within { (p < side) × ((side ≤ 27) × (side * side ≤ length work.old)) }
    ensures cells { Rows B.meaning side side (pivoted B.meaning side p work.old) work.new }
    ensures beyond { Beyond B.meaning (side * side) work.old work.new }
{
    // by node, which a pivot is told
    for u in 0..side {
        if u != p {
            pivot_row(work, side, p, u);
        }
    }
    // the pivot's own row changes last, since the others read it
    pivot_row(work, side, p, p);
}
