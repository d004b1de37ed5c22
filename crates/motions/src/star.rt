// The bounds between every node and the new now. They lie in the work table behind the direct bounds:
// 2n + 2 on a date less the new now, then 2n + 2 on the new now less a date.
ghost use Rattle.std.specs.Prelude.{◌≡◌, ℕ, ◌+◌, ◌*◌, ◌<◌, ◌≤◌, length};
ghost use Rattle.motions.specs.Star.{best_of, to_new, from_new, SpreadTo};

use bound::Bound;
use table::{Table, fill_row, pick, relax};

// The tightest of `count` sums, each of what the two answer for its number.
fn tightest<B: Bound, F: Fn(usize) -> B, G: Fn(usize) -> B>(count: usize, first: F, second: G) -> B
    requires first { (i : ℕ) → i < count → F.pre first i }
    requires second { (i : ℕ) → i < count → G.pre second i }
    ensures { (f g : ℕ → B) → ((i : ℕ) (b : B) → i < count → F.post first i b → b ≡ f i) → ((i : ℕ) (b : B) → i < count → G.post second i b → b ≡ g i) → result ≡ best_of B.meaning f g count }
{
    let mut best = B::open();
    // by number, which both are told; as a fold over the numbers it got no proof
    for i in 0..count {
        best = relax(best, first(i), second(i));
    }
    best
}

// The bound on date `u` less the new now.
fn to_new<B: Bound>(table: &Table<B>, direct: &[B], u: usize) -> B
    requires { (u < 2 * table.now.timers.count + 2) × (2 * table.now.timers.count + 2 ≤ length direct.now) }
    ensures { result ≡ to_new B.meaning table.now.timers.count table.now.cells.now direct.now u }
{
    let end = table.timers.count as usize + 1;
    tightest(end, |i| table.read(u, end + i), |i| pick(direct, i))
}

// The bound on the new now less date `v`.
fn from_new<B: Bound>(table: &Table<B>, direct: &[B], v: usize) -> B
    requires { (v < 2 * table.now.timers.count + 2) × (2 * table.now.timers.count + 2 ≤ length direct.now) }
    ensures { result ≡ from_new B.meaning table.now.timers.count table.now.cells.now direct.now v }
{
    let n = table.timers.count as usize;
    tightest(n, |i| pick(direct, n + 2 + i), |i| table.read(n + 2 + i, v))
}

// All bounds between the nodes and the new now, from the direct ones at the front of the work table.
pub(crate) fn spread<B: Bound>(table: &Table<B>, work: &mut [B])
    requires { 6 * table.now.timers.count + 6 ≤ length work.old }
    ensures { SpreadTo B.meaning table.now.timers.count table.now.cells.now work.old work.new }
{
    let side = 2 * table.timers.count as usize + 2;
    let (direct, rest) = work.split_at_mut(side);
    let (into, rest) = rest.split_at_mut(side);
    fill_row(into, |u, _| to_new(table, direct, u));
    fill_row(&mut rest[..side], |v, _| from_new(table, direct, v));
}
