// Calls on some boards, as values, and their answers.
use bound::Bound;
use faults::BoardFault;
use runs::Name;

// A call on one of some boards. Boards and work tables are named by their place, from 0 on.
#[derive(Drop)]
pub enum Call {
    Open {
        board: usize,
        timers: u8,
    },
    Motion {
        board: usize,
        work: usize,
        bytes: Vec<u8>,
    },
    Join {
        board: usize,
        other: usize,
        work: usize,
    },
    Runs {
        board: usize,
    },
    Count {
        board: usize,
    },
    Within {
        board: usize,
        other: usize,
    },
    Limit {
        board: usize,
        name: Name,
    },
    Span {
        board: usize,
    },
}

#[derive(Clone, Copy)]
pub enum Answer<B: Bound> {
    Opened(Result<(), BoardFault>),
    Moved(Result<usize, BoardFault>),
    Joined(Result<(), BoardFault>),
    Runs(Result<bool, BoardFault>),
    Counted(Result<u32, BoardFault>),
    // none where the first board's chart is within the other's, else the first limit that is not tighter, or
    // 0 0 0 0 where the other chart never runs
    Compared(Result<Option<Name>, BoardFault>),
    Limited(Result<B, BoardFault>),
    Spanned(Result<(B, B), BoardFault>),
    // the call names a board or a work table that is not there, or one board twice
    Absent,
}
