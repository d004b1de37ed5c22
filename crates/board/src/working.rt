// The working of a motion and of a join, by the states of the boards: only charts that run are worked on.
// As methods of Board both would need two clauses more, that the header and the lent slice stay.
ghost use Rattle.std.specs.Prelude.{◌≡◌, ◌+◌, ◌*◌, ◌≤◌, [], ◌∷◌, ◌++◌, length};
ghost use Rattle.chart.specs.Charts.{held as held_motion, MotionOf, Chart, ChartOf};
ghost use Rattle.table.specs.Cells.{Beyond};
ghost use Rattle.table.specs.Finds.{Finds, Kept};
ghost use Rattle.board.specs.Calls.{places as table_places, work_places};
ghost use Rattle.board.specs.Holding.{StateIs};

use crate::header::State;
use bound::Bound;
use chart::{Motion, Timers};
use joins::join;
use motions::motion;
use table::Found;

// How many times over a table, and a work table, has a row for now and for each timer.
pub(crate) const TABLE: u8 = 2;

pub(crate) const WORK: u8 = 3;

// The places of a square table with so many rows for now and for each of these timers.
pub(crate) fn places<const TIMES: u8>(timers: Timers) -> usize
    ensures { result ≡ (TIMES * timers.count + TIMES) * (TIMES * timers.count + TIMES) }
{
    let side = TIMES as usize * timers.count as usize + TIMES as usize;
    side * side
}

// What is found of the chart with the motion behind it, by the board's state.
pub(crate) fn work_motion<B: Bound>(
    state: State,
    table: &mut [B],
    work: &mut [B],
    timers: Timers,
    added: &Motion,
) -> Found
    requires room { (table_places timers.count ≤ length table.old) × (work_places timers.count ≤ length work.old) }
    requires fit { MotionOf timers.count (held_motion added.now) }
    ensures finds { (c : Chart) → StateIs B.meaning state timers c table.old → Finds B.meaning timers.count (c ++ held_motion added.now ∷ []) table.new result }
    ensures kept { Kept table.old table.new result }
    ensures beyond { Beyond B.meaning (table_places timers.count) table.old table.new }
    ensures lent { Beyond B.meaning (work_places timers.count) work.old work.new }
{
    match state {
        State::Runs => motion(table, work, timers, added),
        _ => Found::Never,
    }
}

// What is found of the chart with the other board's behind it, by the states of both.
pub(crate) fn work_join<B: Bound>(
    state: State,
    table: &mut [B],
    others: State,
    other: &[B],
    work: &mut [B],
    timers: Timers,
) -> Found
    requires { (table_places timers.count ≤ length table.old) × ((table_places timers.count ≤ length other.now) × (work_places timers.count ≤ length work.old)) }
    ensures finds { (c d : Chart) → StateIs B.meaning state timers c table.old → StateIs B.meaning others timers d other.now → ChartOf timers.count d → Finds B.meaning timers.count (c ++ d) table.new result }
    ensures kept { Kept table.old table.new result }
    ensures beyond { Beyond B.meaning (table_places timers.count) table.old table.new }
    ensures lent { Beyond B.meaning (work_places timers.count) work.old work.new }
{
    match (state, others) {
        (State::Runs, State::Runs) => join(table, other, work, timers),
        _ => Found::Never,
    }
}
