// Places of a square table. A side is at most 27, 3n + 3 for 8 timers, so that no place overflows: what writes
// squares takes the slice (see `Table`), and so each function asks it.
ghost use Rattle.std.specs.Prelude.{◌≡◌, ℕ, ◌+◌, ◌*◌, ◌<◌, ◌≤◌, length};
ghost use Rattle.table.specs.Cells.{at, cell, Beyond};

use crate::filling::fill_row;
use bound::Bound;

// The place where row `u` of a table of that side starts.
pub fn row_start(u: usize, side: usize) -> usize
    requires { (u < side) × (side ≤ 27) }
    ensures value { result ≡ u * side }
    ensures within { result + side ≤ side * side }
{
    u * side
}

// The bound at a place.
pub fn pick<B: Bound>(table: &[B], place: usize) -> B
    requires { place < length table.now }
    ensures { result ≡ at B.meaning table.now place }
{
    table[place]
}

// The bound in row `u` and column `v`.
pub fn read<B: Bound>(table: &[B], side: usize, u: usize, v: usize) -> B
    requires { (u < side) × ((v < side) × ((side ≤ 27) × (side * side ≤ length table.now))) }
    ensures { result ≡ cell B.meaning side table.now u v }
{
    table[row_start(u, side) + v]
}

// Puts open into the first `count` places.
pub fn clear<B: Bound>(table: &mut [B], count: usize)
    requires { count ≤ length table.old }
    ensures cleared { (i : ℕ) → i < count → at B.meaning table.new i ≡ B.meaning.opened }
    ensures beyond { Beyond B.meaning count table.old table.new }
{
    // the library's `fill` asks for a clone that cannot fail; `fill_with` gets no proof where a parameter names the kind
    let open = B::open();
    fill_row(&mut table[..count], |_, _| open);
}
