// Charts' tables, to be read.
ghost use Rattle.std.specs.Prelude.{◌≡◌, ◌+◌, ◌*◌, ◌<◌, ◌≤◌, length};
ghost use Rattle.table.specs.Cells.{cell};

use crate::cells::read;
use bound::Bound;
use chart::Timers;

// The table of a chart with these timers: (2n + 2)² places at the front of a slice, row by row. What writes a
// table takes the slice: a struct over a `&mut` has to promise in each method that it still lends the same one.
#[derive(Drop)]
pub struct Table<'a, B: Bound> {
    pub cells: &'a [B],
    pub timers: Timers,
    ghost room: { (2 * timers.count + 2) * (2 * timers.count + 2) ≤ length cells.now },
}

// The tables of two charts with the same timers.
#[derive(Drop)]
pub struct TwoTables<'a, B: Bound> {
    pub first: &'a [B],
    pub second: &'a [B],
    pub timers: Timers,
    ghost first_room: { (2 * timers.count + 2) * (2 * timers.count + 2) ≤ length first.now },
    ghost second_room: { (2 * timers.count + 2) * (2 * timers.count + 2) ≤ length second.now },
}

impl<'a, B: Bound> Table<'a, B> {
    // The bound in row `u` and column `v`.
    pub fn read(&self, u: usize, v: usize) -> B
        requires { (u < 2 * self.now.timers.count + 2) × (v < 2 * self.now.timers.count + 2) }
        ensures { result ≡ cell B.meaning (2 * self.now.timers.count + 2) self.now.cells.now u v }
    {
        read(self.cells, 2 * self.timers.count as usize + 2, u, v)
    }
}
