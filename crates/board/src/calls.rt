// The calls on a board. None has a `requires`: they refuse.
ghost use Rattle.std.specs.Prelude.{◌≡◌, ◌+◌, ◌*◌, ◌≤◌, Ok, MatchResult, length, is_ok, if◌then◌else◌};
ghost use Rattle.board.specs.Standing.{Standing, blank, opened};
ghost use Rattle.board.specs.Calls.{OpenIs, RunsIs, CountIs, WithinIs, LimitIs, SpanIs, NoRun, NoPair};
ghost use Rattle.board.specs.Done.{MotionDone, JoinDone};
ghost use Rattle.board.specs.Left.{TableLeft};
ghost use Rattle.board.specs.Holding.{Stands, TimersAre};

use crate::board::Board;
use crate::header::{Header, State};
use crate::working::{TABLE, WORK, places, work_join, work_motion};
use bound::Bound;
use chart::{Timers, read_motion};
use faults::BoardFault;
use runs::Name;
use table::{Table, TwoTables};

// The longest chart that a board takes.
const MOST_MOTIONS: u32 = 1_000_000_000;

// What a running board tells against one that never runs: the name of no limit.
// The rules give it the name 0 0 0 0.
const NO_LIMIT: Name = Name {
    a: 0,
    b: 0,
    c: 0,
    d: 0,
};

impl<'a, B: Bound> Board<'a, B> {
    // A board just made: Blank, on a table of any length and content, which stays as it is.
    pub fn new(table: &'a mut [B]) -> Self
        ensures stands { Stands B.meaning result blank }
        ensures same { result.table.now ≡ table.old }
        ensures named { result.table.ghost_name ≡ table.entry.ghost_name }
    {
        Board {
            header: Header::blank(),
            table,
        }
    }

    // The timers of an opened board. Its table has their places, since open has tested that; it is tested
    // again so that the calls can be proved on any header and table.
    fn timers(&self) -> Result<Timers, BoardFault>
        ensures { TimersAre self.now.header (length self.now.table.now) result }
    {
        if self.header.state == State::Blank {
            return Err(BoardFault::Blank);
        }
        let timers = self.header.timers;
        if self.table.len() < places::<TABLE>(timers) {
            return Err(BoardFault::Table);
        }
        Ok(timers)
    }

    // The timers of this board and of another, where both are opened and have as many.
    fn shared_timers(&self, other: &Board<B>) -> Result<Timers, BoardFault>
        ensures { MatchResult result
            (λ n. TimersAre self.now.header (length self.now.table.now) (Ok n) × TimersAre other.now.header (length other.now.table.now) (Ok n))
            (λ f. (s t : Standing) → Stands B.meaning self.now s → Stands B.meaning other.now t → NoPair s t f) }
    {
        let timers = self.timers()?;
        if timers != other.timers()? {
            return Err(BoardFault::Differ);
        }
        Ok(timers)
    }

    // Makes the board one of `n` timers with the empty chart, in any state.
    pub fn open(&mut self, n: u8) -> Result<(), BoardFault>
        ensures answer { OpenIs (length self.old.table.now) n result }
        ensures stands { (s : Standing) → Stands B.meaning self.old s → Stands B.meaning self.new (if is_ok result then opened n s else s) }
        ensures table { (s : Standing) → TableLeft B.meaning (opened n s) self.old.table.now self.new.table.now result }
        ensures named { self.new.table.ghost_name ≡ self.old.table.ghost_name }
    {
        let timers = Timers::new(n).ok_or(BoardFault::Timers)?;
        if self.table.len() < places::<TABLE>(timers) {
            return Err(BoardFault::Table);
        }
        table::empty(self.table, timers);
        self.header = Header {
            state: State::Runs,
            timers,
            count: 0,
        };
        Ok(())
    }

    // Adds the motion at the front of the bytes to the chart's end, and answers how many bytes it used.
    pub fn motion(&mut self, work: &mut [B], bytes: &[u8]) -> Result<usize, BoardFault>
        ensures done { (s : Standing) → Stands B.meaning self.old s → MotionDone B.meaning (length work.old) bytes.now self.new.header self.old.table.now self.new.table.now work.old work.new result s }
        ensures named { self.new.table.ghost_name ≡ self.old.table.ghost_name }
    {
        let timers = self.timers()?;
        let needed = places::<WORK>(timers);
        if work.len() < needed {
            return Err(BoardFault::Work);
        }
        let (motion, used) = read_motion(bytes, timers)?;
        if self.header.count >= MOST_MOTIONS {
            return Err(BoardFault::Count);
        }
        let found = work_motion(self.header.state, self.table, work, timers, &motion);
        table::clear(work, needed);
        self.header.settle(found, 1)?;
        Ok(used)
    }

    // Adds the other board's chart after its own.
    pub fn join(&mut self, other: &Board<B>, work: &mut [B]) -> Result<(), BoardFault>
        ensures done { (s t : Standing) → Stands B.meaning self.old s → Stands B.meaning other.now t → JoinDone B.meaning (length work.old) self.new.header self.old.table.now self.new.table.now work.old work.new result s t }
        ensures named { self.new.table.ghost_name ≡ self.old.table.ghost_name }
    {
        let timers = self.shared_timers(other)?;
        let needed = places::<WORK>(timers);
        if work.len() < needed {
            return Err(BoardFault::Work);
        }
        let more = other.header.count;
        if more > MOST_MOTIONS || self.header.count > MOST_MOTIONS - more {
            return Err(BoardFault::Count);
        }
        let found = work_join(
            self.header.state,
            self.table,
            other.header.state,
            other.table,
            work,
            timers,
        );
        table::clear(work, needed);
        self.header.settle(found, more)
    }

    // Whether the chart has a run.
    pub fn runs(&self) -> Result<bool, BoardFault>
        ensures { (s : Standing) → Stands B.meaning self.now s → RunsIs B.meaning s result }
    {
        match self.header.state {
            State::Blank => Err(BoardFault::Blank),
            State::Runs => Ok(true),
            State::Never => Ok(false),
        }
    }

    // The length of the chart.
    pub fn count(&self) -> Result<u32, BoardFault>
        ensures { (s : Standing) → Stands B.meaning self.now s → CountIs s result }
    {
        match self.header.state {
            State::Blank => Err(BoardFault::Blank),
            _ => Ok(self.header.count),
        }
    }

    // None where the other chart joins every pair of readings that this one joins; else the first limit that is
    // not tighter than the other's, or 0 0 0 0 where the other chart never runs.
    pub fn within(&self, other: &Board<B>) -> Result<Option<Name>, BoardFault>
        ensures { (s t : Standing) → Stands B.meaning self.now s → Stands B.meaning other.now t → WithinIs B.meaning s t result }
    {
        let timers = self.shared_timers(other)?;
        if self.header.state == State::Never {
            return Ok(None);
        }
        if other.header.state == State::Never {
            return Ok(Some(NO_LIMIT));
        }
        let tables = TwoTables {
            first: self.table,
            second: other.table,
            timers,
        };
        Ok(tables.first_looser())
    }

    // The table of an opened board whose chart runs.
    fn running(&self) -> Result<Table<'_, B>, BoardFault>
        ensures { MatchResult result
            (λ t. (self.now.header.state ≡ State.Runs) × (t.cells.now ≡ self.now.table.now) × TimersAre self.now.header (length self.now.table.now) (Ok t.timers))
            (λ f. (s : Standing) → Stands B.meaning self.now s → NoRun B.meaning s f) }
    {
        let timers = self.timers()?;
        if self.header.state == State::Never {
            return Err(BoardFault::Never);
        }
        Ok(Table {
            cells: self.table,
            timers,
        })
    }

    // The limit under a name.
    pub fn limit(&self, name: Name) -> Result<B, BoardFault>
        ensures { (s : Standing) → Stands B.meaning self.now s → LimitIs B.meaning s name result }
    {
        let table = self.running()?;
        if !table::is_name(name, table.timers) {
            return Err(BoardFault::Name);
        }
        Ok(table.limit(name))
    }

    // Two bounds together: the first is kept by the time of every run, the second by the negated time.
    pub fn span(&self) -> Result<(B, B), BoardFault>
        ensures { (s : Standing) → Stands B.meaning self.now s → SpanIs B.meaning s result }
    {
        let table = self.running()?;
        let end = table.timers.count as usize + 1;
        Ok((table.read(end, 0), table.read(0, end)))
    }
}
