// The join of two tables: both end to end in the work table, pivots on the nodes between them, and the
// outer places read out under new names.
ghost use Rattle.std.specs.Prelude.{◌≡◌, ℕ, ◌+◌, ◌*◌, ◌<◌, ◌≤◌, true, false, List, ◌++◌, length};
ghost use Rattle.chart.specs.Charts.{Chart, ChartOf};
ghost use Rattle.runs.specs.Good.{Good};
ghost use Rattle.runs.specs.Graph.{Never as NeverRuns};
ghost use Rattle.runs.specs.Joining.{JoiningBounds, join_name};
ghost use Rattle.runs.specs.Normal.{table_of};
ghost use Rattle.table.specs.Cells.{cell, Rows, Beyond, Small};
ghost use Rattle.table.specs.Finds.{Finds, Kept};
ghost use Rattle.joins.specs.Joins.{joined_cell, outer_cell, LargeIn, SmallIn};

use bound::{Bound, allows_zero, keep_tighter};
use chart::Timers;
use table::{Found, MOST_SIZE, TwoTables, all_small, fill, pivot, read};

// The bound in row `u` and column `v` of the two tables end to end, before any pivot.
fn joined_cell<B: Bound>(tables: &TwoTables<B>, u: usize, v: usize) -> B
    requires { (u < 3 * tables.now.timers.count + 3) × (v < 3 * tables.now.timers.count + 3) }
    ensures { result ≡ joined_cell B.meaning tables.now.timers.count tables.now.first.now tables.now.second.now u v }
{
    let middle = tables.timers.count as usize + 1;
    let side = 2 * middle;
    if u < middle || v < middle {
        return if u < side && v < side {
            read(tables.first, side, u, v)
        } else {
            B::open()
        };
    }
    let later = read(tables.second, side, u - middle, v - middle);
    if u < side && v < side {
        keep_tighter(read(tables.first, side, u, v), later)
    } else {
        later
    }
}

// The two tables end to end, in the work table.
fn lay_out<B: Bound>(work: &mut [B], tables: &TwoTables<B>)
    requires { (3 * tables.now.timers.count + 3) * (3 * tables.now.timers.count + 3) ≤ length work.old }
    ensures cells { Rows B.meaning (3 * tables.now.timers.count + 3) (3 * tables.now.timers.count + 3) (joined_cell B.meaning tables.now.timers.count tables.now.first.now tables.now.second.now) work.new }
    ensures beyond { Beyond B.meaning ((3 * tables.now.timers.count + 3) * (3 * tables.now.timers.count + 3)) work.old work.new }
{
    let side = 3 * tables.timers.count as usize + 3;
    fill(work, side, |u, v, _| joined_cell(tables, u, v));
}

// Pivots on the nodes between the two tables; with no size above 2^40 every sum is within the reach. False,
// and no more pivots, where the next node's place does not allow 0.
fn close<B: Bound>(work: &mut [B], timers: Timers) -> bool
    requires { (3 * timers.count + 3) * (3 * timers.count + 3) ≤ length work.old }
    ensures closed { Small B.meaning (3 * timers.count + 3) work.old → result ≡ true → (c d : Chart) (first second : List B) → JoiningBounds B.meaning timers.count c d (table_of B.meaning timers.count first) (table_of B.meaning timers.count second) 0 (cell B.meaning (3 * timers.count + 3) work.old) → JoiningBounds B.meaning timers.count c d (table_of B.meaning timers.count first) (table_of B.meaning timers.count second) (timers.count + 1) (cell B.meaning (3 * timers.count + 3) work.new) }
    ensures never { Small B.meaning (3 * timers.count + 3) work.old → result ≡ false → (c d : Chart) (first second : List B) → JoiningBounds B.meaning timers.count c d (table_of B.meaning timers.count first) (table_of B.meaning timers.count second) 0 (cell B.meaning (3 * timers.count + 3) work.old) → NeverRuns B.meaning.differences timers.count (c ++ d) }
    ensures beyond { Beyond B.meaning ((3 * timers.count + 3) * (3 * timers.count + 3)) work.old work.new }
{
    let n = timers.count as usize;
    let side = 3 * n + 3;
    // by node, which a pivot is told
    for k in 0..n + 1 {
        let p = n + 1 + k;
        if !allows_zero(read(work, side, p, p)) {
            return false;
        }
        pivot(work, side, p);
    }
    true
}

// The node of the work table that node `u` of the joined chart's table is.
fn outer_node(u: usize, timers: Timers) -> usize
    requires { u < 2 * timers.count + 2 }
    ensures value { result ≡ join_name timers.count u }
    ensures within { result < 3 * timers.count + 3 }
{
    let n = timers.count as usize;
    if u <= n { u } else { n + 1 + u }
}

// The two tables end to end after the pivots.
#[derive(Drop)]
struct Closed<'a, B: Bound> {
    work: &'a [B],
    timers: Timers,
    ghost room: { (3 * timers.count + 3) * (3 * timers.count + 3) ≤ length work.now },
}

impl<'a, B: Bound> Closed<'a, B> {
    // The bound in row `u` and column `v` of the joined chart's table.
    fn outer(&self, u: usize, v: usize) -> B
        requires { (u < 2 * self.now.timers.count + 2) × (v < 2 * self.now.timers.count + 2) }
        ensures { result ≡ outer_cell B.meaning self.now.timers.count self.now.work.now u v }
    {
        let side = 3 * self.timers.count as usize + 3;
        let p = outer_node(u, self.timers);
        let q = outer_node(v, self.timers);
        read(self.work, side, p, q)
    }

    // Whether no size in the joined chart's table is above 2^40.
    fn all_small(&self) -> bool
        ensures small { result ≡ true → (u : ℕ) → u < 2 * self.now.timers.count + 2 → SmallIn B.meaning self.now.timers.count self.now.work.now u (2 * self.now.timers.count + 2) }
        ensures large { result ≡ false → (u : ℕ) × (u < 2 * self.now.timers.count + 2) × LargeIn B.meaning self.now.timers.count self.now.work.now u }
    {
        let side = 2 * self.timers.count as usize + 2;
        all_small(side, MOST_SIZE, |u, v| self.outer(u, v))
    }

    // The joined chart's table, out of the work table.
    fn take_out(&self, table: &mut [B])
        requires room { (2 * self.now.timers.count + 2) * (2 * self.now.timers.count + 2) ≤ length table.old }
        ensures cells { Rows B.meaning (2 * self.now.timers.count + 2) (2 * self.now.timers.count + 2) (outer_cell B.meaning self.now.timers.count self.now.work.now) table.new }
        ensures beyond { Beyond B.meaning ((2 * self.now.timers.count + 2) * (2 * self.now.timers.count + 2)) table.old table.new }
    {
        let side = 2 * self.timers.count as usize + 2;
        fill(table, side, |u, v, _| self.outer(u, v));
    }
}

// The table of two charts, the second after the first, in place of the first one's. Where the two tables are
// those of charts, every sum is within the reach. The work table is left for the caller to clear.
pub fn join<B: Bound>(table: &mut [B], other: &[B], work: &mut [B], timers: Timers) -> Found
    requires room { ((2 * timers.count + 2) * (2 * timers.count + 2) ≤ length table.old) × (((2 * timers.count + 2) * (2 * timers.count + 2) ≤ length other.now) × ((3 * timers.count + 3) * (3 * timers.count + 3) ≤ length work.old)) }
    ensures finds { (c d : Chart) → Good B.meaning.differences timers.count c (table_of B.meaning timers.count table.old) → Small B.meaning (2 * timers.count + 2) table.old → Good B.meaning.differences timers.count d (table_of B.meaning timers.count other.now) → Small B.meaning (2 * timers.count + 2) other.now → ChartOf timers.count d → Finds B.meaning timers.count (c ++ d) table.new result }
    ensures kept { Kept table.old table.new result }
    ensures beyond { Beyond B.meaning ((2 * timers.count + 2) * (2 * timers.count + 2)) table.old table.new }
    ensures lent { Beyond B.meaning ((3 * timers.count + 3) * (3 * timers.count + 3)) work.old work.new }
{
    let tables = TwoTables {
        first: table,
        second: other,
        timers,
    };
    lay_out(work, &tables);
    if !close(work, timers) {
        return Found::Never;
    }
    let closed = Closed { work, timers };
    if !closed.all_small() {
        return Found::Large;
    }
    closed.take_out(table);
    Found::Runs
}
