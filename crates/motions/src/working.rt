// The working of a motion: the new now, the test for a run left, one pivot, and restarts as new names.
ghost use Rattle.std.specs.Prelude.{◌≡◌, ℕ, ◌+◌, ◌*◌, ◌^◌, ◌<◌, ◌≤◌, true, false, [], ◌∷◌, ◌++◌, length, IfSome, unwrap_or};
ghost use Rattle.chart.specs.Charts.{held as held_motion, MotionOf, Chart};
ghost use Rattle.runs.specs.Good.{Good};
ghost use Rattle.runs.specs.Motions.{motion_name};
ghost use Rattle.runs.specs.Normal.{table_of};
ghost use Rattle.table.specs.Cells.{at, Beyond, Small};
ghost use Rattle.table.specs.Finds.{Finds, Kept};
ghost use Rattle.motions.specs.Star.{TripAllows, settled_cell, new_cell, StarFits, Settled};

use crate::star::spread;
use crate::windows::direct;
use bound::{Bound, allows_zero, zero};
use chart::{Motion, Timers};
use table::{Found, MOST_SIZE, Table, all_small, fill, pick, relax, sum_or_open};

// 2^39
const HALF_SIZE: u64 = 1 << 39;

// Whether every bound has a size of at most 2^39.
fn modest<B: Bound>(bounds: &[B]) -> bool
    ensures { result ≡ true → (i : ℕ) → i < length bounds.now → B.meaning.size_of (at B.meaning bounds.now i) ≤ 2 ^ 39 }
{
    bounds.iter().all(|bound| bound.size() <= HALF_SIZE)
}

// What the new table is made from, beside the old one: the bounds of the new now, which lie in the work
// table, and the restarts. Its lists stay in one slice: cut, each contract would name three and their lengths.
#[derive(Drop)]
struct NewNow<'a, B: Bound> {
    work: &'a [B],
    timers: Timers,
    motion: &'a Motion,
    zero: B,
    ghost room: { 6 * timers.count + 6 ≤ length work.now },
}

impl<'a, B: Bound> NewNow<'a, B> {
    // Whether every way from the new now to a timer's date and back allows 0, where these sums are answered.
    fn passes(&self) -> bool
        ensures all { StarFits B.meaning self.now.timers.count self.now.work.now → result ≡ true → (i : ℕ) → i < self.now.timers.count → TripAllows B.meaning self.now.timers.count self.now.work.now i }
        ensures one { StarFits B.meaning self.now.timers.count self.now.work.now → result ≡ false → (i : ℕ) × (i < self.now.timers.count) × (TripAllows B.meaning self.now.timers.count self.now.work.now i → ⊥) }
    {
        (0..self.timers.count as usize).all(|i| self.trip(i))
    }

    // Whether the way from the new now to the date of timer i + 1 and back allows 0.
    fn trip(&self, i: usize) -> bool
        requires { i < self.now.timers.count }
        ensures yes { StarFits B.meaning self.now.timers.count self.now.work.now → result ≡ true → TripAllows B.meaning self.now.timers.count self.now.work.now i }
        ensures no { StarFits B.meaning self.now.timers.count self.now.work.now → result ≡ false → TripAllows B.meaning self.now.timers.count self.now.work.now i → ⊥ }
    {
        let n = self.timers.count as usize;
        let onward = pick(self.work, n + 2 + i);
        let back = pick(self.work, 3 * n + 4 + i);
        allows_zero(sum_or_open(onward, back))
    }

    // The node of the old table that node `u` is after the motion; none where it is the new now, as now and
    // every restarted timer are.
    fn name_of(&self, u: usize) -> Option<usize>
        requires { u < 2 * self.now.timers.count + 2 }
        ensures name { unwrap_or result (2 * self.now.timers.count + 2) ≡ motion_name self.now.timers.count (held_motion self.now.motion.now) u }
        ensures old { IfSome result (λ p. p < 2 * self.now.timers.count + 2) }
    {
        let n = self.timers.count as usize;
        if u <= n {
            return Some(u);
        }
        let timer = u - (n + 1);
        if timer == 0 || self.motion.restarts(timer as u8) {
            None
        } else {
            Some(u)
        }
    }

    // The bound on the date of `p` less the new now.
    fn into(&self, p: usize) -> B
        requires { p < 2 * self.now.timers.count + 2 }
        ensures { result ≡ at B.meaning self.now.work.now (2 * self.now.timers.count + 2 + p) }
    {
        self.work[2 * self.timers.count as usize + 2 + p]
    }

    // The bound on the new now less the date of `q`.
    fn out(&self, q: usize) -> B
        requires { q < 2 * self.now.timers.count + 2 }
        ensures { result ≡ at B.meaning self.now.work.now (4 * self.now.timers.count + 4 + q) }
    {
        self.work[4 * self.timers.count as usize + 4 + q]
    }

    // What stands in row `u` and column `v` of the new table, where `held` stood in the old one: a pivot on
    // the new now, under the new names.
    fn settled(&self, held: B, u: usize, v: usize) -> B
        requires { (u < 2 * self.now.timers.count + 2) × (v < 2 * self.now.timers.count + 2) }
        ensures { result ≡ settled_cell B.meaning self.now.zero self.now.timers.count self.now.work.now held (motion_name self.now.timers.count (held_motion self.now.motion.now) u) (motion_name self.now.timers.count (held_motion self.now.motion.now) v) }
    {
        match (self.name_of(u), self.name_of(v)) {
            (Some(p), Some(q)) => relax(held, self.into(p), self.out(q)),
            (Some(p), None) => self.into(p),
            (None, Some(q)) => self.out(q),
            (None, None) => self.zero,
        }
    }

    // What stands in row `u` and column `v` of the new table.
    fn new_bound(&self, table: &Table<B>, u: usize, v: usize) -> B
        requires same { table.now.timers.count ≡ self.now.timers.count }
        requires inside { (u < 2 * self.now.timers.count + 2) × (v < 2 * self.now.timers.count + 2) }
        ensures { result ≡ new_cell B.meaning self.now.zero self.now.timers.count (held_motion self.now.motion.now) table.now.cells.now self.now.work.now u v }
    {
        self.settled(table.read(u, v), u, v)
    }

    // Whether every bound between a node and the new now has a size of at most 2^39.
    fn all_modest(&self) -> bool
        ensures { result ≡ true → (i : ℕ) → 2 * self.now.timers.count + 2 ≤ i → i < 6 * self.now.timers.count + 6 → B.meaning.size_of (at B.meaning self.now.work.now i) ≤ 2 ^ 39 }
    {
        let side = 2 * self.timers.count as usize + 2;
        modest(&self.work[side..3 * side])
    }

    // Whether no size in the new table is above 2^40, with a quick yes: sums of two sizes up to 2^39 need no
    // look at every place.
    fn sizes_fit(&self, table: &Table<B>) -> bool
        requires same { table.now.timers.count ≡ self.now.timers.count }
        ensures all { Small B.meaning (2 * self.now.timers.count + 2) table.now.cells.now → B.meaning.size_of self.now.zero ≤ 1 → result ≡ true → (u v : ℕ) → u < 2 * self.now.timers.count + 2 → v < 2 * self.now.timers.count + 2 → B.meaning.size_of (new_cell B.meaning self.now.zero self.now.timers.count (held_motion self.now.motion.now) table.now.cells.now self.now.work.now u v) ≤ 2 ^ 40 }
        ensures one { result ≡ false → (u : ℕ) × (v : ℕ) × (u < 2 * self.now.timers.count + 2) × (v < 2 * self.now.timers.count + 2) × (2 ^ 40 < B.meaning.size_of (new_cell B.meaning self.now.zero self.now.timers.count (held_motion self.now.motion.now) table.now.cells.now self.now.work.now u v)) }
    {
        if self.all_modest() {
            return true;
        }
        let side = 2 * self.timers.count as usize + 2;
        all_small(side, MOST_SIZE, |u, v| self.new_bound(table, u, v))
    }

    // What is found; the new table takes the place of the old one where it is the longer chart's.
    fn finish(&self, table: &mut [B]) -> Found
        requires room { (2 * self.now.timers.count + 2) * (2 * self.now.timers.count + 2) ≤ length table.old }
        ensures found { StarFits B.meaning self.now.timers.count self.now.work.now → Small B.meaning (2 * self.now.timers.count + 2) table.old → B.meaning.size_of self.now.zero ≤ 1 → Settled B.meaning self.now.zero self.now.timers.count (held_motion self.now.motion.now) table.old self.now.work.now table.new result }
        ensures kept { Kept table.old table.new result }
        ensures beyond { Beyond B.meaning ((2 * self.now.timers.count + 2) * (2 * self.now.timers.count + 2)) table.old table.new }
    {
        if !self.passes() {
            return Found::Never;
        }
        let old = Table {
            cells: table,
            timers: self.timers,
        };
        if !self.sizes_fit(&old) {
            return Found::Large;
        }
        let side = 2 * self.timers.count as usize + 2;
        fill(table, side, |u, v, held| self.settled(held, u, v));
        Found::Runs
    }
}

// The working of one motion on a chart's table: what is found of the chart with the motion behind it. In a
// chart's table every sum is within the reach.
pub fn motion<B: Bound>(table: &mut [B], work: &mut [B], timers: Timers, motion: &Motion) -> Found
    requires room { ((2 * timers.count + 2) * (2 * timers.count + 2) ≤ length table.old) × (6 * timers.count + 6 ≤ length work.old) }
    requires fit { MotionOf timers.count (held_motion motion.now) }
    ensures finds { (c : Chart) → Good B.meaning.differences timers.count c (table_of B.meaning timers.count table.old) → Small B.meaning (2 * timers.count + 2) table.old → Finds B.meaning timers.count (c ++ held_motion motion.now ∷ []) table.new result }
    ensures kept { Kept table.old table.new result }
    ensures beyond { Beyond B.meaning ((2 * timers.count + 2) * (2 * timers.count + 2)) table.old table.new }
    ensures lent { Beyond B.meaning (6 * timers.count + 6) work.old work.new }
{
    direct(work, timers, motion);
    let old = Table {
        cells: table,
        timers,
    };
    spread(&old, work);
    let new_now = NewNow {
        work,
        timers,
        motion,
        zero: zero(),
    };
    new_now.finish(table)
}
