// A fault told by its five numbers.
ghost use Rattle.std.specs.Prelude.{◌≡◌, ◌^◌, ◌<◌};
ghost use Rattle.faults.specs.Faults.{fault, told, chart_told, board_told, motion_told};

use crate::types::{AtChart, BoardFault, BookFault, ChartFault, Fault};
use chart::MotionFault;

// The chart and the motion that a fault names, and the byte from which its own byte counts.
#[derive(Clone, Copy)]
struct Place {
    chart: u64,
    motion: u64,
    start: u64,
    ghost near: { start < 2 ^ 33 },
}

impl Place {
    fn fault(self, number: u64, level: u64, byte: u64) -> Fault
        ensures { result ≡ fault number level self.chart self.motion byte }
    {
        Fault {
            number,
            level,
            chart: self.chart,
            motion: self.motion,
            byte,
        }
    }

    // A motion's fault, where its first byte is at the start.
    fn motion(self, fault: MotionFault) -> Fault
        ensures { result ≡ motion_told self.chart self.motion self.start fault }
    {
        let start = self.start;
        let (number, byte) = match fault {
            MotionFault::Cut => (10, start),
            MotionFault::Windows => (11, start),
            MotionFault::Restart => (12, start + 1),
            MotionFault::Timer(at) => (13, start + u64::from(at)),
            MotionFault::Sign(at) => (14, start + u64::from(at)),
            MotionFault::Number(at) => (15, start + u64::from(at)),
        };
        self.fault(number, 3, byte)
    }

    // A board's fault at a motion, whose first byte is at the start. A size is told at that byte; the
    // cases beside it and `Motion` are wrong with the call, and name no byte.
    fn board(self, fault: BoardFault) -> Fault
        ensures { result ≡ board_told self.chart self.motion self.start fault }
    {
        let (number, byte) = match fault {
            BoardFault::Blank => (16, 0),
            BoardFault::Timers => (17, 0),
            BoardFault::Table => (18, 0),
            BoardFault::Differ => (19, 0),
            BoardFault::Work => (20, 0),
            BoardFault::Count => (21, 0),
            BoardFault::Size => (22, self.start),
            BoardFault::Never => (23, 0),
            BoardFault::Name => (24, 0),
            BoardFault::Motion(fault) => return self.motion(fault),
        };
        self.fault(number, 4, byte)
    }
}

// The five numbers that tell a chart's fault.
impl From<AtChart> for Fault {
    ghost from_gives = { λ e r. r ≡ chart_told e.chart e.part e.fault };

    fn from(e: AtChart) -> Fault {
        let chart = u64::from(e.chart);
        let start = u64::from(e.part);
        let whole = Place {
            chart,
            motion: 0,
            start,
        };
        match e.fault {
            ChartFault::Short => whole.fault(7, 2, start),
            ChartFault::Kind => whole.fault(8, 2, start),
            ChartFault::Timers => whole.fault(9, 2, start + 1),
            ChartFault::Board(at) => {
                let place = Place {
                    chart,
                    motion: at.motion.into(),
                    start: start + u64::from(at.byte),
                };
                place.board(at.fault)
            }
        }
    }
}

// The five numbers at a board's own call: no chart, no motion, and bytes count from the first given.
impl From<BoardFault> for Fault {
    ghost from_gives = { λ e r. r ≡ board_told 0 0 0 e };

    fn from(e: BoardFault) -> Fault {
        let call = Place {
            chart: 0,
            motion: 0,
            start: 0,
        };
        call.board(e)
    }
}

// The five numbers that tell a book's fault.
impl From<BookFault> for Fault {
    ghost from_gives = { λ e r. r ≡ told e };

    fn from(e: BookFault) -> Fault {
        let (number, chart, byte) = match e {
            BookFault::Length => (1, 0, 0),
            BookFault::Count => (2, 0, 0),
            BookFault::Cut => (3, 0, 2),
            BookFault::Early(pair) => (4, u64::from(pair) + 1, 2 + 8 * u64::from(pair)),
            BookFault::Late(pair) => (5, u64::from(pair) + 1, 2 + 8 * u64::from(pair)),
            BookFault::Missing => (6, 0, 0),
            BookFault::Chart(at) => return at.into(),
        };
        let book = Place {
            chart,
            motion: 0,
            start: 0,
        };
        book.fault(number, 1, byte)
    }
}
