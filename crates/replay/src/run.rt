// Any list of calls.
ghost use Rattle.std.specs.Prelude.{◌≡◌, ◌+◌, ◌≤◌, List, [], length, vec_capacity, MatchResult};
ghost use Rattle.board.specs.Standing.{Standing};
ghost use Rattle.replay.specs.History.{Lawful};
ghost use Rattle.replay.specs.Slots.{snapshot, all_blank, AllOwn, ServesAll, Emptied};

use crate::calls::{Answer, Call};
use crate::slots::Slot;
use crate::steps::step;
use board::Header;
use bound::Bound;
use std::alloc::{AllocError, Global};

// Makes every board Blank again, on its table as it is.
fn empty_all<B: Bound>(slots: &mut [Slot<B>])
    ensures { Emptied B.meaning slots.old slots.new }
{
    // by place, since the edit replay-not-blank names another place
    for i in 0..slots.len() {
        slots[i].header = Header::blank();
    }
}

// Makes all calls, in their order. There is room for their answers.
fn run<B: Bound>(
    slots: &mut [Slot<B>],
    works: &mut [Vec<B>],
    calls: &[Call],
    answers: &mut Vec<Answer<B>>,
)
    requires { (answers.old.items ≡ []) × (length calls.now ≤ vec_capacity answers.old) }
    ensures { ServesAll B.meaning calls.now answers.new.items slots.old works.old slots.new works.new }
{
    for call in calls {
        let answer = step(slots, works, call).unwrap_or(Answer::Absent);
        answers.push_reserved(answer);
    }
}

// Makes a board anew on each table and then all the calls in their order, and answers what each call
// answered. Want of memory is told before any call is made.
pub fn replay<B: Bound>(
    heap: Global,
    slots: &mut [Slot<B>],
    works: &mut [Vec<B>],
    calls: &[Call],
) -> Result<Vec<Answer<B>>, AllocError>
    ensures { MatchResult result
        (λ answers. (charts : List Standing) × Lawful B.meaning (snapshot (all_blank slots.old) slots.old works.old) calls.now answers.items (snapshot charts slots.new works.new) × AllOwn B.meaning slots.new charts)
        (λ _. (slots.new ≡ slots.old) × (works.new ≡ works.old)) }
{
    let mut answers = Vec::with_capacity(heap, calls.len())?;
    empty_all(slots);
    run(slots, works, calls, &mut answers);
    Ok(answers)
}
