// The bounds that a motion's wait and windows write between the dates at the old end and the new now.
// They lie at the front of the one work table that the caller lends (nothing here allocates): n + 1 on a date
// less the new now, then n + 1 the other way.
ghost use Rattle.std.specs.Prelude.{◌≡◌, ◌+◌, ◌*◌, ◌<◌, ◌≤◌, false, length, pos, Some, slice_set};
ghost use Rattle.chart.specs.Charts.{held as held_motion, WindowOf};
ghost use Rattle.chart.specs.Lists.{All};
ghost use Rattle.table.specs.Cells.{at, Beyond};
ghost use Rattle.motions.specs.Windows.{tightened_by, Noted, Direct};

use bound::{Bound, keep_tighter, zero};
use chart::{Motion, Sign, Timers, Window};
use table::clear;

// Tightens one place by "< c" or "≤ c".
fn write<B: Bound>(work: &mut [B], place: usize, strict: bool, c: i64)
    requires { place < length work.old }
    ensures { work.new ≡ slice_set work.old place (tightened_by B.meaning (at B.meaning work.old place) (B.meaning.written strict c)) }
{
    let held = work[place];
    work[place] = B::written(strict, c).map_or(held, |bound| keep_tighter(held, bound));
}

// One window more. An upper one bounds the new now less the timer's date, a lower one the reverse.
fn note<B: Bound>(work: &mut [B], timers: Timers, window: Window)
    requires { (window.timer ≤ timers.count) × (2 * timers.count + 2 ≤ length work.old) }
    ensures { Noted B.meaning timers.count window work.old work.new }
{
    let lower = window.timer as usize;
    let upper = timers.count as usize + 1 + lower;
    let c = window.number as i64;
    match window.sign {
        Sign::AtMost => write(work, upper, false, c),
        Sign::Under => write(work, upper, true, c),
        Sign::AtLeast => write(work, lower, false, -c),
        Sign::Over => write(work, lower, true, -c),
        Sign::Equal => {
            write(work, upper, false, c);
            write(work, lower, false, -c);
        }
    }
}

// The bounds that the wait and all windows of a motion write.
pub(crate) fn direct<B: Bound>(work: &mut [B], timers: Timers, motion: &Motion)
    requires room { 2 * timers.count + 2 ≤ length work.old }
    requires timers { All (WindowOf timers.count) (held_motion motion.now).windows }
    ensures bounds { (zero : B) → B.meaning.written false (pos 0) ≡ Some zero → Direct B.meaning zero timers.count (held_motion motion.now).windows work.new }
    ensures beyond { Beyond B.meaning (2 * timers.count + 2) work.old work.new }
{
    clear(work, 2 * timers.count as usize + 2);
    work[0] = zero();
    for window in motion.windows() {
        note(work, timers, *window);
    }
}
