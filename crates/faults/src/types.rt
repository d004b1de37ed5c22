// The faults: each level's holds the lower one whole.
ghost use Rattle.std.specs.Prelude.{◌≡◌};
ghost use Rattle.faults.specs.declared.types.BoardFault.TheVariants.{Motion as of_motion};
ghost use Rattle.faults.specs.declared.types.ChartFault.TheVariants.{Board as of_board};
ghost use Rattle.faults.specs.declared.types.BookFault.TheVariants.{Chart as of_chart};

use chart::MotionFault;
use thiserror::Error;

// Why a board refuses a call.
#[derive(Clone, Copy, PartialEq, Eq, Debug, Error)]
pub enum BoardFault {
    #[error("the board, or the other board, is blank")]
    Blank,
    // open with timers not 1 to 8
    #[error("a board has 1 to 8 timers")]
    Timers,
    #[error("the board's table is too short")]
    Table,
    #[error("the two boards differ in their number of timers")]
    Differ,
    #[error("the work table is too short")]
    Work,
    // the count would pass 1,000,000,000
    #[error("a chart on a board has at most 1,000,000,000 motions")]
    Count,
    // a size in the new normalised table
    #[error("a size in the chart's new table is above 2^40")]
    Size,
    // limit or span of a Never board
    #[error("a board whose chart never runs has no limit and no span")]
    Never,
    #[error("this is not a limit's name")]
    Name,
    // the bytes given hold no lawful motion
    #[error(transparent)]
    Motion(MotionFault),
}

// A board's fault at a motion of a chart. Motions count from 1, bytes from the part's first.
#[derive(Clone, Copy, PartialEq, Eq, Debug, Error)]
#[error("{fault}")]
pub struct AtMotion {
    pub motion: u32,
    pub byte: u32,
    pub fault: BoardFault,
}

// Why a chart's part is refused.
#[derive(Clone, Copy, PartialEq, Eq, Debug, Error)]
pub enum ChartFault {
    #[error("a chart's part has at least 2 bytes")]
    Short,
    // no kind has this byte
    #[error("the kind is neither 1 (Tick) nor 2 (Edge)")]
    Kind,
    #[error("a chart has 1 to 8 timers")]
    Timers,
    // a motion is refused
    #[error(transparent)]
    Board(AtMotion),
}

// A chart's fault in a book. Charts count from 1; the part begins at this byte of the book.
#[derive(Clone, Copy, PartialEq, Eq, Debug, Error)]
#[error("{fault}")]
pub struct AtChart {
    pub chart: u16,
    pub part: u32,
    pub fault: ChartFault,
}

// Why a book is refused. Pairs count from 0.
#[derive(Clone, Copy, PartialEq, Eq, Debug, Error)]
pub enum BookFault {
    #[error("a book has 2 to 65,536 bytes")]
    Length,
    #[error("a book has 1 to 64 charts")]
    Count,
    #[error("the book ends inside the pairs that say where its charts lie")]
    Cut,
    // this pair's offset
    #[error("a part begins before the end of the pairs or of the part before")]
    Early(u16),
    // this pair's offset plus length
    #[error("a part reaches past the end of the book")]
    Late(u16),
    #[error("the book has no chart of this number")]
    Missing,
    // a chart is refused
    #[error(transparent)]
    Chart(AtChart),
}

// Written out, since `#[from]` has no contract that says which fault it makes.
impl From<MotionFault> for BoardFault {
    ghost from_gives = { λ e r. r ≡ of_motion e };

    fn from(e: MotionFault) -> BoardFault {
        BoardFault::Motion(e)
    }
}

// Written out, as above.
impl From<AtMotion> for ChartFault {
    ghost from_gives = { λ e r. r ≡ of_board e };

    fn from(e: AtMotion) -> ChartFault {
        ChartFault::Board(e)
    }
}

// Written out, as above.
impl From<AtChart> for BookFault {
    ghost from_gives = { λ e r. r ≡ of_chart e };

    fn from(e: AtChart) -> BookFault {
        BookFault::Chart(e)
    }
}

// A fault told by five numbers, with 0 where there is none. The level is the row of the table of
// refusals: 1 book, 2 chart, 3 motion, 4 board, 5 sheet. Plain numbers, since users and C are to read them.
#[derive(Clone, Copy, PartialEq, Eq, Debug)]
pub struct Fault {
    pub number: u64,
    pub level: u64,
    pub chart: u64,
    pub motion: u64,
    pub byte: u64,
}
