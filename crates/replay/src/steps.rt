// One call on one of some boards.
ghost use Rattle.std.specs.Prelude.{◌≢◌, ◌<◌, ◌↔◌, IsTrue, length, unwrap_or};
ghost use Rattle.replay.specs.Slots.{Serves};

use crate::calls::{Answer, Call};
use crate::lending::{at, both};
use crate::slots::Slot;
use bound::Bound;

// Whether these are the places of two boards.
fn are_two<B: Bound>(slots: &[Slot<B>], i: usize, j: usize) -> bool
    ensures { IsTrue result ↔ ((i < length slots.now) × (j < length slots.now) × (i ≢ j)) }
{
    i < slots.len() && j < slots.len() && i != j
}

// Makes one call, if there are the boards and the work table that it names, and two boards where it takes two.
pub(crate) fn step<B: Bound>(
    slots: &mut [Slot<B>],
    works: &mut [Vec<B>],
    call: &Call,
) -> Option<Answer<B>>
    ensures { Serves B.meaning call.now (unwrap_or result Answer.Absent) slots.old works.old slots.new works.new }
{
    match call {
        Call::Open { board, timers } => {
            let slot = at(slots, *board)?;
            Some(Answer::Opened(slot.open(*timers)))
        }
        Call::Motion { board, work, bytes } => {
            let slot = at(slots, *board)?;
            let lent = at(works, *work)?;
            Some(Answer::Moved(slot.motion(lent, bytes.as_slice())))
        }
        Call::Join { board, other, work } => {
            if !are_two(slots, *board, *other) {
                return None;
            }
            let lent = at(works, *work)?;
            let (slot, second) = both(slots, *board, *other);
            Some(Answer::Joined(slot.join(second, lent)))
        }
        Call::Runs { board } => {
            let slot = at(slots, *board)?;
            Some(Answer::Runs(slot.runs()))
        }
        Call::Count { board } => {
            let slot = at(slots, *board)?;
            Some(Answer::Counted(slot.count()))
        }
        Call::Within { board, other } => {
            if !are_two(slots, *board, *other) {
                return None;
            }
            let (slot, second) = both(slots, *board, *other);
            Some(Answer::Compared(slot.within(second)))
        }
        Call::Limit { board, name } => {
            let slot = at(slots, *board)?;
            Some(Answer::Limited(slot.limit(*name)))
        }
        Call::Span { board } => {
            let slot = at(slots, *board)?;
            Some(Answer::Spanned(slot.span()))
        }
    }
}
