// Boards with tables of their own, and the calls on them.
ghost use Rattle.std.specs.Prelude.{◌≡◌, length, is_ok, if◌then◌else◌};
ghost use Rattle.board.specs.Standing.{Standing, blank, opened};
ghost use Rattle.board.specs.Calls.{OpenIs, RunsIs, CountIs, WithinIs, LimitIs, SpanIs};
ghost use Rattle.board.specs.Left.{TableLeft};
ghost use Rattle.board.specs.Done.{MotionDone, JoinDone};
ghost use Rattle.replay.specs.Slots.{items, Owns, Same};

use crate::on::{join_on, motion_on, open_on, read_on, within_on};
use board::Header;
use bound::Bound;
use faults::BoardFault;
use runs::Name;

// A board laid down while no call is made: its header, and its own table. A call resumes it.
// What it stands for is no field of it: nothing in memory holds a chart, so each call speaks of any that it owns.
#[derive(Drop)]
pub struct Slot<B: Bound> {
    pub(crate) header: Header,
    pub(crate) table: Vec<B>,
}

impl<B: Bound> Slot<B> {
    // A board just made on a table.
    pub fn new(table: Vec<B>) -> Self
        ensures stands { Owns B.meaning result blank }
        ensures same { items result ≡ table.items }
    {
        Slot {
            header: Header::blank(),
            table,
        }
    }

    // The board's table.
    pub fn table(&self) -> &[B]
        ensures { result.now ≡ items self.now }
    {
        self.table.as_slice()
    }

    pub(crate) fn open(&mut self, n: u8) -> Result<(), BoardFault>
        ensures answer { OpenIs (length (items self.old)) n result }
        ensures stands { (s : Standing) → Owns B.meaning self.old s → Owns B.meaning self.new (if is_ok result then opened n s else s) }
        ensures table { (s : Standing) → TableLeft B.meaning (opened n s) (items self.old) (items self.new) result }
    {
        open_on(&mut self.header, self.table.as_mut_slice(), n)
    }

    pub(crate) fn motion(&mut self, work: &mut Vec<B>, bytes: &[u8]) -> Result<usize, BoardFault>
        ensures { (s : Standing) → Owns B.meaning self.old s → MotionDone B.meaning (length work.old.items) bytes.now self.new.header (items self.old) (items self.new) work.old.items work.new.items result s }
    {
        motion_on(
            &mut self.header,
            self.table.as_mut_slice(),
            work.as_mut_slice(),
            bytes,
        )
    }

    pub(crate) fn join(&mut self, other: &mut Slot<B>, work: &mut Vec<B>) -> Result<(), BoardFault>
        ensures done { (s t : Standing) → Owns B.meaning self.old s → Owns B.meaning other.old t → JoinDone B.meaning (length work.old.items) self.new.header (items self.old) (items self.new) work.old.items work.new.items result s t }
        ensures same { Same other.old other.new }
    {
        join_on(
            &mut self.header,
            self.table.as_mut_slice(),
            other.header,
            other.table.as_mut_slice(),
            work.as_mut_slice(),
        )
    }

    pub(crate) fn runs(&mut self) -> Result<bool, BoardFault>
        ensures answer { (s : Standing) → Owns B.meaning self.old s → RunsIs B.meaning s result }
        ensures same { Same self.old self.new }
    {
        read_on(self.header, self.table.as_mut_slice(), |board| board.runs())
    }

    pub(crate) fn count(&mut self) -> Result<u32, BoardFault>
        ensures answer { (s : Standing) → Owns B.meaning self.old s → CountIs s result }
        ensures same { Same self.old self.new }
    {
        read_on(
            self.header,
            self.table.as_mut_slice(),
            |board| board.count(),
        )
    }

    pub(crate) fn within(&mut self, other: &mut Slot<B>) -> Result<Option<Name>, BoardFault>
        ensures answer { (s t : Standing) → Owns B.meaning self.old s → Owns B.meaning other.old t → WithinIs B.meaning s t result }
        ensures same { Same self.old self.new }
        ensures other { Same other.old other.new }
    {
        within_on(
            self.header,
            self.table.as_mut_slice(),
            other.header,
            other.table.as_mut_slice(),
        )
    }

    pub(crate) fn limit(&mut self, name: Name) -> Result<B, BoardFault>
        ensures answer { (s : Standing) → Owns B.meaning self.old s → LimitIs B.meaning s name result }
        ensures same { Same self.old self.new }
    {
        read_on(
            self.header,
            self.table.as_mut_slice(),
            |board| board.limit(name),
        )
    }

    pub(crate) fn span(&mut self) -> Result<(B, B), BoardFault>
        ensures answer { (s : Standing) → Owns B.meaning self.old s → SpanIs B.meaning s result }
        ensures same { Same self.old self.new }
    {
        read_on(self.header, self.table.as_mut_slice(), |board| board.span())
    }
}
