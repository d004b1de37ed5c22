// The range and the reach that Tick and Edge share. Both lie far below 2^63, so no number within them overflows.
ghost use Rattle.std.specs.Prelude.{◌≡◌, ◌+◌, ◌^◌, nat_le, unsigned_abs};
ghost use Rattle.bound.specs.Limited.{up_to};

const RANGE: u64 = 1 << 34;

const REACH: u64 = 1 << 50;

// The number, where it lies in the range.
pub fn in_range(c: i64) -> Option<i64>
    ensures { result ≡ up_to (2 ^ 34) (unsigned_abs c) c }
{
    (c.unsigned_abs() <= RANGE).then_some(c)
}

// Whether two sizes added stay within the reach; the sum itself might not fit. What the first leaves is the same
// for all sums with it, as in a pivot, so that each takes one comparison.
pub fn within_reach(a: u64, b: u64) -> bool
    ensures { result ≡ nat_le (a + b) (2 ^ 50) }
{
    REACH.checked_sub(a).is_some_and(|left| b <= left)
}
