// Places filled by a rule, and bounds tested. The rule is told where a place is, and what stood there.
ghost use Rattle.std.specs.Prelude.{◌≡◌, ℕ, ◌*◌, ◌<◌, ◌≤◌, true, false, length};
ghost use Rattle.table.specs.Cells.{at, cell, Beyond};

use crate::cells::row_start;
use bound::Bound;

// Fills all places of a slice.
pub fn fill_row<B: Bound, F: Fn(usize, B) -> B>(row: &mut [B], rule: F)
    requires { (v : ℕ) (held : B) → v < length row.old → F.pre rule v held }
    ensures len { length row.new ≡ length row.old }
    ensures row { (v : ℕ) → v < length row.old → F.post rule v (at B.meaning row.old v) (at B.meaning row.new v) }
{
    for (v, place) in row.iter_mut().enumerate() {
        *place = rule(v, *place);
    }
}

// Fills the square table of that side at the front of the slice, row by row.
pub fn fill<B: Bound, F: Fn(usize, usize, B) -> B>(table: &mut [B], side: usize, rule: F)
    requires room { (side ≤ 27) × (side * side ≤ length table.old) }
    requires rule { (u v : ℕ) (held : B) → u < side → v < side → F.pre rule u v held }
    ensures cells { (u v : ℕ) → u < side → v < side → F.post rule u v (cell B.meaning side table.old u v) (cell B.meaning side table.new u v) }
    ensures beyond { Beyond B.meaning (side * side) table.old table.new }
{
    // by row number, which the rule is told; a rule of rows made of it gets no proof in `fill_row`
    for u in 0..side {
        let start = row_start(u, side);
        for (v, place) in table[start..start + side].iter_mut().enumerate() {
            *place = rule(u, v, *place);
        }
    }
}

// Whether no bound of a square of that side has a size above `most`. `cell` is told the row and the column.
pub fn all_small<B: Bound, F: Fn(usize, usize) -> B>(side: usize, most: u64, cell: F) -> bool
    requires { (u v : ℕ) → u < side → v < side → F.pre cell u v }
    ensures small { result ≡ true → (u v : ℕ) → u < side → v < side → (b : B) × F.post cell u v b × (B.meaning.size_of b ≤ most) }
    ensures large { result ≡ false → (u : ℕ) × (v : ℕ) × (u < side) × (v < side) × (b : B) × F.post cell u v b × (most < B.meaning.size_of b) }
{
    // by number, which `cell` is told
    for u in 0..side {
        for v in 0..side {
            if cell(u, v).size() > most {
                return false;
            }
        }
    }
    true
}
