// The empty chart's table.
ghost use Rattle.std.specs.Prelude.{◌≡◌, ◌+◌, ◌*◌, ◌<◌, ◌≤◌, false, [], length, pos, Some};
ghost use Rattle.runs.specs.Empty.{base};
ghost use Rattle.table.specs.Cells.{Rows, Beyond, empty_cell};
ghost use Rattle.table.specs.Finds.{ChartTable};

use crate::filling::fill;
use bound::{Bound, zero};
use chart::Timers;

// The start node whose date a node has in the empty chart.
fn start_node(u: usize, timers: Timers) -> usize
    ensures { result ≡ base timers.count u }
{
    let n = timers.count as usize;
    if u <= n { u } else { u - (n + 1) }
}

// The bound in row `u` and column `v` of the empty chart's table.
fn empty_cell<B: Bound>(timers: Timers, u: usize, v: usize, zero: B) -> B
    ensures { result ≡ empty_cell B.meaning zero timers.count u v }
{
    let i = start_node(u, timers);
    let j = start_node(v, timers);
    if j == 0 || i == j { zero } else { B::open() }
}

// The empty chart's table for these timers, at the front of the slice.
pub fn empty<B: Bound>(table: &mut [B], timers: Timers)
    requires { (2 * timers.count + 2) * (2 * timers.count + 2) ≤ length table.old }
    ensures cells { (zero : B) → B.meaning.written false (pos 0) ≡ Some zero → Rows B.meaning (2 * timers.count + 2) (2 * timers.count + 2) (empty_cell B.meaning zero timers.count) table.new }
    ensures its { ChartTable B.meaning timers.count [] table.new }
    ensures beyond { Beyond B.meaning ((2 * timers.count + 2) * (2 * timers.count + 2)) table.old table.new }
{
    let side = 2 * timers.count as usize + 2;
    let zero = zero();
    fill(table, side, |u, v, _| empty_cell(timers, u, v, zero));
}
