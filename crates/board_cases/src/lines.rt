// The lines of a script, read.
use hex::FromHexError;
use runs::Name;
use std::alloc::{AllocError, Global};
use std::io;
use std::num::NonZeroU32;
use std::str::FromStr;
use thiserror::Error;

// Why a line is no call, or none that can be made.
#[derive(Debug, Drop, Error)]
pub enum BadLine {
    #[error("there is no such call")]
    Call,
    #[error("a number or the name of a board is misspelt")]
    Word,
    #[error("the kind is neither 1 (Tick) nor 2 (Edge)")]
    Kind,
    #[error("no script has begun")]
    NoScript,
    #[error("no board of this name was made, or the call names one board twice")]
    NoBoard,
    #[error("a motion's bytes are misspelt: {0}")]
    Bytes(#[from] FromHexError),
    #[error(transparent)]
    Memory(#[from(alloc)] AllocError),
    #[error(transparent)]
    Io(#[from] io::Error),
}

// What is called on a board. Work tables are given by their number of places.
#[derive(Drop)]
pub enum Call {
    Make { places: usize },
    Open { timers: u8 },
    Motion { bytes: Vec<u8>, work: usize },
    Join { other: char, work: usize },
    Runs,
    Count,
    Within { other: char },
    Limit { name: Name },
    Span,
    Table,
}

// A call that is made so many times on the board of this name.
#[derive(Drop)]
pub struct Line {
    pub times: u32,
    pub board: char,
    pub call: Call,
}

fn parsed<T: FromStr>(word: &str) -> Result<T, BadLine>
where
    T::Err: Drop,
{
    word.parse::<T>().map_err(|_| BadLine::Word)
}

// A motion's bytes in hexadecimal, `-` where there are none.
fn bytes_of(heap: Global, word: &str) -> Result<Vec<u8>, BadLine> {
    match word {
        "-" => Ok(Vec::new(heap)),
        _ => Ok(hex::decode(heap, word)?),
    }
}

impl Call {
    // The call whose name and arguments these are.
    fn read(heap: Global, name: &str, arguments: &[&str]) -> Result<Call, BadLine> {
        match (name, arguments) {
            ("make", [places]) => Ok(Call::Make {
                places: parsed(places)?,
            }),
            ("open", [timers]) => Ok(Call::Open {
                timers: parsed(timers)?,
            }),
            ("motion", [bytes, work]) => Ok(Call::Motion {
                bytes: bytes_of(heap, bytes)?,
                work: parsed(work)?,
            }),
            ("join", [other, work]) => Ok(Call::Join {
                other: parsed(other)?,
                work: parsed(work)?,
            }),
            ("runs", []) => Ok(Call::Runs),
            ("count", []) => Ok(Call::Count),
            ("within", [other]) => Ok(Call::Within {
                other: parsed(other)?,
            }),
            ("limit", [a, b, c, d]) => Ok(Call::Limit {
                name: Name {
                    a: parsed(a)?,
                    b: parsed(b)?,
                    c: parsed(c)?,
                    d: parsed(d)?,
                },
            }),
            ("span", []) => Ok(Call::Span),
            ("table", []) => Ok(Call::Table),
            _ => Err(BadLine::Call),
        }
    }
}

impl Line {
    // The call that a line's words spell.
    pub fn read(heap: Global, words: &[&str]) -> Result<Line, BadLine> {
        let (times, words) = match words {
            ["repeat", times, call @ ..] => (parsed::<NonZeroU32>(times)?.get(), call),
            _ => (1, words),
        };
        let [name, board, arguments @ ..] = words else {
            return Err(BadLine::Call);
        };
        Ok(Line {
            times,
            board: parsed(board)?,
            call: Call::read(heap, name, arguments)?,
        })
    }
}
