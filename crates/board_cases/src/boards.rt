// The boards of a script, and the calls on them.
use crate::answers::{Answer, Told, Work};
use crate::kinds::Kind;
use crate::lines::{BadLine, Call, Line};
use board::{Board, Header};
use faults::BoardFault;
use runs::Name;
use std::alloc::{AllocError, Global};
use std::collections::BTreeMap;

// A board laid down between calls: its header, and a table of its own.
#[derive(Drop)]
struct Slot<B: Kind> {
    header: Header,
    table: Vec<B>,
    // By these a call uses places of its work table; 0 until the first accepted open.
    timers: u8,
}

fn filled<B: Kind>(heap: Global, places: usize) -> Result<Vec<B>, AllocError> {
    vec![in heap; B::filler(); places]
}

impl<B: Kind> Slot<B> {
    fn new(table: Vec<B>) -> Self {
        Slot {
            header: Header::blank(),
            table,
            timers: 0,
        }
    }

    fn board(&mut self) -> Board<'_, B> {
        Board::resume(self.header, self.table.as_mut_slice())
    }

    // The header is kept after a refusal too, so that a change would show.
    fn open(&mut self, timers: u8) -> Result<Told<B>, BoardFault> {
        let mut board = self.board();
        let opened = board.open(timers);
        self.header = board.header();
        opened?;
        self.timers = timers;
        Ok(Told::Done)
    }

    fn motion(&mut self, work: &mut [B], bytes: &[u8]) -> Result<Told<B>, BoardFault> {
        let mut board = self.board();
        let used = board.motion(work, bytes);
        self.header = board.header();
        Ok(Told::Used(used?))
    }

    fn join(&mut self, other: &mut Self, work: &mut [B]) -> Result<Told<B>, BoardFault> {
        let mut board = self.board();
        let joined = board.join(&other.board(), work);
        self.header = board.header();
        joined?;
        Ok(Told::Done)
    }

    fn runs(&mut self) -> Result<Told<B>, BoardFault> {
        let runs = self.board().runs()?;
        Ok(if runs { Told::Yes } else { Told::No })
    }

    fn count(&mut self) -> Result<Told<B>, BoardFault> {
        Ok(Told::Count(self.board().count()?))
    }

    fn within(&mut self, other: &mut Self) -> Result<Told<B>, BoardFault> {
        match self.board().within(&other.board())? {
            None => Ok(Told::Yes),
            Some(name) => Ok(Told::Looser(name)),
        }
    }

    fn limit(&mut self, name: Name) -> Result<Told<B>, BoardFault> {
        Ok(Told::Limit(self.board().limit(name)?))
    }

    fn span(&mut self) -> Result<Told<B>, BoardFault> {
        let (most, least) = self.board().span()?;
        Ok(Told::Span(most, least))
    }

    // What a work table holds after a call on this board.
    fn left(&self, work: &[B]) -> Work {
        let side = 3 * self.timers as usize + 3;
        let cleared = work.iter().take_while(|bound| **bound == B::open()).count();
        let kept = work.iter().skip(cleared).all(|bound| *bound == B::filler());
        if kept && cleared == 0 {
            Work::Kept
        } else if kept && cleared == side * side {
            Work::Open
        } else {
            Work::Other
        }
    }
}

// The boards of a script, by their names.
#[derive(Drop)]
pub struct Boards<B: Kind> {
    heap: Global,
    slots: BTreeMap<char, Slot<B>>,
}

impl<B: Kind> Boards<B> {
    pub fn new(heap: Global) -> Self {
        Boards {
            heap,
            slots: BTreeMap::new(heap),
        }
    }

    fn slot(&mut self, name: char) -> Result<&mut Slot<B>, BadLine> {
        self.slots.get_mut(&name).ok_or(BadLine::NoBoard)
    }

    fn make(&mut self, name: char, places: usize) -> Result<Told<B>, BadLine> {
        let table = filled(self.heap, places)?;
        self.slots.insert(name, Slot::new(table))?;
        Ok(Told::Made)
    }

    fn motion(&mut self, name: char, bytes: &[u8], places: usize) -> Result<Answer<B>, BadLine> {
        let mut work = filled(self.heap, places)?;
        let slot = self.slot(name)?;
        let told = slot.motion(work.as_mut_slice(), bytes);
        Ok(Answer {
            told,
            work: Some(slot.left(work.as_slice())),
        })
    }

    // The other board is out of the map for the call, so that both can be lent.
    fn join(&mut self, name: char, other: char, places: usize) -> Result<Answer<B>, BadLine> {
        let mut work = filled(self.heap, places)?;
        let mut second = self.slots.remove(&other).ok_or(BadLine::NoBoard)?;
        let slot = self.slot(name)?;
        let told = slot.join(&mut second, work.as_mut_slice());
        let left = slot.left(work.as_slice());
        self.slots.insert(other, second)?;
        Ok(Answer {
            told,
            work: Some(left),
        })
    }

    // As for a join.
    fn within(&mut self, name: char, other: char) -> Result<Answer<B>, BadLine> {
        let mut second = self.slots.remove(&other).ok_or(BadLine::NoBoard)?;
        let told = self.slot(name)?.within(&mut second);
        self.slots.insert(other, second)?;
        Ok(Answer { told, work: None })
    }

    // Makes a call on the board of this name.
    fn call(&mut self, name: char, call: &Call) -> Result<Answer<B>, BadLine> {
        let told = match call {
            Call::Make { places } => Ok(self.make(name, *places)?),
            Call::Open { timers } => self.slot(name)?.open(*timers),
            Call::Motion { bytes, work } => return self.motion(name, bytes.as_slice(), *work),
            Call::Join { other, work } => return self.join(name, *other, *work),
            Call::Runs => self.slot(name)?.runs(),
            Call::Count => self.slot(name)?.count(),
            Call::Within { other } => return self.within(name, *other),
            Call::Limit { name: limit } => self.slot(name)?.limit(*limit),
            Call::Span => self.slot(name)?.span(),
            Call::Table => Ok(Told::Table(self.slot(name)?.table.clone()?)),
        };
        Ok(Answer { told, work: None })
    }

    // Makes a line's call as often as it says, and prints the line with the last answer.
    pub fn print(&mut self, rt: &HostRuntime, text: &str, line: &Line) -> Result<(), BadLine> {
        for _ in 1..line.times {
            self.call(line.board, &line.call)?;
        }
        let answer = self.call(line.board, &line.call)?;
        println!(rt; "{text} = {answer}")?;
        Ok(())
    }
}
