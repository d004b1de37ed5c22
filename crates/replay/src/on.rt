// Calls on a board that is resumed for them, on a header and a lent table. Not as methods of Slot: one that
// lends its own table and resumes a board on it knows nothing of the table afterwards.
ghost use Rattle.std.specs.Prelude.{◌≡◌, length, is_ok, if◌then◌else◌};
ghost use Rattle.std.specs.Fn.{FnOnceReturnsAt};
ghost use Rattle.board.specs.declared.board.Board.{Board as BoardOf};
ghost use Rattle.board.specs.Standing.{Standing, opened};
ghost use Rattle.board.specs.Calls.{OpenIs, WithinIs};
ghost use Rattle.board.specs.Left.{TableLeft};
ghost use Rattle.board.specs.Done.{MotionDone, JoinDone};
ghost use Rattle.board.specs.Holding.{StandsFor};

use board::{Board, Header};
use bound::Bound;
use faults::BoardFault;
use runs::Name;

// A call that changes nothing.
pub(crate) fn read_on<B: Bound, R, F: FnOnce(&Board<'_, B>) -> R>(
    header: Header,
    table: &mut [B],
    call: F,
) -> R
    requires { F.IsAlwaysCallable call }
    ensures answer { (b : BoardOf B) × (b.header ≡ header) × (b.table.now ≡ table.old) × FnOnceReturnsAt F.FnOnce call b result }
    ensures same { table.new ≡ table.old }
{
    call(&Board::resume(header, table))
}

// The calls below change a table or take two. As closures they were not proved: what an open leaves in its
// table was not found from the closure's contract, and of a table that a closure captures nothing is known after.
pub(crate) fn open_on<B: Bound>(
    header: &mut Header,
    table: &mut [B],
    n: u8,
) -> Result<(), BoardFault>
    ensures answer { OpenIs (length table.old) n result }
    ensures stands { (s : Standing) → StandsFor B.meaning header.old table.old s → StandsFor B.meaning header.new table.new (if is_ok result then opened n s else s) }
    ensures table { (s : Standing) → TableLeft B.meaning (opened n s) table.old table.new result }
{
    let mut board = Board::resume(*header, table);
    let r = board.open(n);
    *header = board.header();
    r
}

pub(crate) fn motion_on<B: Bound>(
    header: &mut Header,
    table: &mut [B],
    work: &mut [B],
    bytes: &[u8],
) -> Result<usize, BoardFault>
    ensures { (s : Standing) → StandsFor B.meaning header.old table.old s → MotionDone B.meaning (length work.old) bytes.now header.new table.old table.new work.old work.new result s }
{
    let mut board = Board::resume(*header, table);
    let r = board.motion(work, bytes);
    *header = board.header();
    r
}

pub(crate) fn join_on<B: Bound>(
    header: &mut Header,
    table: &mut [B],
    others: Header,
    other: &mut [B],
    work: &mut [B],
) -> Result<(), BoardFault>
    ensures done { (s t : Standing) → StandsFor B.meaning header.old table.old s → StandsFor B.meaning others other.old t → JoinDone B.meaning (length work.old) header.new table.old table.new work.old work.new result s t }
    ensures same { other.new ≡ other.old }
{
    let mut board = Board::resume(*header, table);
    let second = Board::resume(others, other);
    let r = board.join(&second, work);
    *header = board.header();
    r
}

pub(crate) fn within_on<B: Bound>(
    header: Header,
    table: &mut [B],
    others: Header,
    other: &mut [B],
) -> Result<Option<Name>, BoardFault>
    ensures answer { (s t : Standing) → StandsFor B.meaning header table.old s → StandsFor B.meaning others other.old t → WithinIs B.meaning s t result }
    ensures same { table.new ≡ table.old }
    ensures other { other.new ≡ other.old }
{
    let board = Board::resume(header, table);
    let second = Board::resume(others, other);
    board.within(&second)
}
