// A board's header: its state, its timers and its count.
ghost use Rattle.std.specs.Prelude.{◌≡◌};

use chart::Timers;

// Blank until the first accepted open; then whether the chart has a run.
#[derive(Clone, Copy, PartialEq, Eq, Debug)]
pub enum State {
    Blank,
    Runs,
    Never,
}

// What a board knows beside its table. Nothing reads the timers and the count of a Blank board.
// A rule of the project wants it plain: state, timers and count, matched with the finding in place.
#[derive(Clone, Copy)]
pub struct Header {
    pub(crate) state: State,
    pub(crate) timers: Timers,
    pub(crate) count: u32,
}

impl Header {
    // The header of a board just made.
    pub fn blank() -> Header
        ensures { result.state ≡ State.Blank }
    {
        Header {
            state: State::Blank,
            timers: Timers { count: 1 },
            count: 0,
        }
    }
}
