// What becomes of a header when the chart grows.
ghost use Rattle.std.specs.Prelude.{◌≡◌, ◌+◌, ◌≤◌};
ghost use Rattle.board.specs.Settling.{settle_answer, settled_by};

use crate::header::{Header, State};
use faults::BoardFault;
use table::Found;

impl Header {
    // By the board's own state and by what the working finds of a chart that is longer by `more` motions.
    pub(crate) fn settle(&mut self, found: Found, more: u32) -> Result<(), BoardFault>
        requires { self.old.count + more ≤ 1000000000 }
        ensures answer { result ≡ settle_answer self.old.state found }
        ensures after { self.new ≡ settled_by self.old.state found self.old more }
    {
        match (self.state, found) {
            (State::Blank, _) => return Err(BoardFault::Blank),
            (State::Runs, Found::Large) => return Err(BoardFault::Size),
            (State::Runs, Found::Never) => self.state = State::Never,
            (State::Runs, Found::Runs) => {}
            (State::Never, _) => {}
        }
        self.count += more;
        Ok(())
    }
}
