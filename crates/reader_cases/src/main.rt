// A test of the reader: each line on standard input has a name and a book in hexadecimal, and the
// program prints for it the fault of the book, or of each chart its count of motions or its fault.
// A token ends in `*n` where it stands n times. `stdout` has what the rules give.
#![tactic(auto)]

ghost use Rattle.std.specs.Prelude.{◌<◌, IfOk};

use faults::{BookFault, Fault};
use std::alloc::{AllocError, Global};
use std::io;
use thiserror::Error;

// Why a line spells no book.
#[derive(Debug, Drop, Error)]
enum NoBook {
    #[error("a book is spelled in hexadecimal")]
    Spelling,
    #[error(transparent)]
    Memory(#[from(alloc)] AllocError),
}

// Only small letters: `char::to_digit` and the crate `hex` would take capital ones too.
fn nibble(c: u8) -> Result<u8, NoBook>
    ensures { IfOk result (λ n. n < 16) }
{
    match c {
        b'0'..=b'9' => Ok(c - b'0'),
        b'a'..=b'f' => Ok(c - b'a' + 10),
        _ => Err(NoBook::Spelling),
    }
}

// Appends the bytes of one hexadecimal string.
fn push_hex(book: &mut Vec<u8>, hex: &[u8]) -> Result<(), NoBook> {
    for pair in hex.chunks(2) {
        let [high, low] = *pair else {
            return Err(NoBook::Spelling);
        };
        book.push(nibble(high)? * 16 + nibble(low)?)?;
    }
    Ok(())
}

fn push_token(book: &mut Vec<u8>, token: &str) -> Result<(), NoBook> {
    let Some((hex, times)) = token.split_once('*') else {
        return push_hex(book, token.as_bytes());
    };
    let times = times.parse::<u32>().map_err(|_| NoBook::Spelling)?;
    for _ in 0..times {
        push_hex(book, hex.as_bytes())?;
    }
    Ok(())
}

// The book that a line's tokens spell.
fn spelled(heap: Global, tokens: &str) -> Result<Vec<u8>, NoBook> {
    let mut book = Vec::new(heap);
    for token in tokens.split_whitespace() {
        push_token(&mut book, token)?;
    }
    Ok(book)
}

fn print_fault(rt: &HostRuntime, fault: BookFault) -> io::Result<()> {
    let Fault {
        number,
        level,
        chart,
        motion,
        byte,
    } = fault.into();
    println!(rt; " fault {number} {level} {chart} {motion} {byte}")
}

// A book with the name that its lines of output begin with.
#[derive(Clone, Copy)]
struct Case<'a> {
    name: &'a str,
    book: &'a [u8],
}

impl<'a> Case<'a> {
    fn print_chart(&self, rt: &HostRuntime, number: u16) -> io::Result<()> {
        print!(rt; "{} {number}", self.name)?;
        match book::count_motions(self.book, number) {
            Ok(count) => println!(rt; " count {count}"),
            Err(fault) => print_fault(rt, fault),
        }
    }

    fn print(&self, rt: &HostRuntime) -> io::Result<()> {
        let name = self.name;
        match book::charts(self.book) {
            Ok(count) => {
                for number in 1..=count {
                    self.print_chart(rt, number)?;
                }
                if name.starts_with("ask-") {
                    self.print_chart(rt, 0)?;
                    self.print_chart(rt, count.saturating_add(1))?;
                }
                Ok(())
            }
            Err(fault) => {
                print!(rt; "{name}")?;
                print_fault(rt, fault)
            }
        }
    }
}

fn print_line(rt: &HostRuntime, line: &str) -> io::Result<()> {
    if line.is_empty() || line.starts_with('#') {
        return Ok(());
    }
    let (name, tokens) = line.split_once(' ').unwrap_or((line, ""));
    match spelled(rt.alloc(), tokens) {
        Ok(book) => {
            let case = Case {
                name,
                book: book.as_slice(),
            };
            case.print(rt)
        }
        Err(NoBook::Spelling) => println!(rt; "{name} is no hexadecimal"),
        Err(NoBook::Memory(e)) => Err(e.into()),
    }
}

fn main(rt: HostRuntime) -> io::Result<()> {
    for line in rt.lines(rt.alloc()) {
        print_line(&rt, line?.as_str())?;
    }
    Ok(())
}
