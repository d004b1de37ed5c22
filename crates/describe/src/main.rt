// Reads a book on standard input and prints a plain account of it: its charts and their motions in
// words, or what is wrong, with the refusal's number and byte.
#![tactic(auto)]

use book::Head;
use faults::{BookFault, Fault};
use std::io;
use std::io::Read;

// One byte more than a book may have, so that a longer input is seen to be too long, and no more is read.
const MOST_READ: u64 = 65537;

fn read_book(rt: &HostRuntime) -> io::Result<Vec<u8>> {
    let mut book = Vec::new(rt.alloc());
    rt.stdin().take(MOST_READ).read_to_end(&mut book)?;
    Ok(book)
}

fn plural(n: u64) -> &'static str {
    if n == 1 { "" } else { "s" }
}

// The line that says why something was refused.
fn print_fault(rt: &HostRuntime, fault: BookFault) -> io::Result<()> {
    let Fault {
        number,
        motion,
        byte,
        ..
    } = fault.into();
    if motion > 0 {
        println!(rt; "  refusal {number} at byte {byte}, in motion {motion}: {fault}")
    } else {
        println!(rt; "  refusal {number} at byte {byte}: {fault}")
    }
}

fn print_head(rt: &HostRuntime, number: u16, head: Head) -> io::Result<()> {
    let timers = head.timers.count;
    print!(rt;
        "Chart {number}: {}, {timers} timer{}, ",
        head.kind,
        plural(timers.into())
    )
}

// A chart's motions are told up to its end or its first fault.
fn print_chart(rt: &HostRuntime, book: &[u8], number: u16) -> io::Result<()> {
    let counted = book::count_motions(book, number);
    if let Ok(motions) = book::motions(book, number) {
        print_head(rt, number, motions.head())?;
        if let Ok(count) = counted {
            println!(rt; "{count} motion{}", plural(count.into()))?;
        } else {
            println!(rt; "refused")?;
        }
        for motion in motions.map_while(Result::ok) {
            println!(rt; "  {motion}")?;
        }
    } else {
        println!(rt; "Chart {number}: refused")?;
    }
    match counted {
        Ok(_) => Ok(()),
        Err(fault) => print_fault(rt, fault),
    }
}

fn print_length(rt: &HostRuntime, book: &[u8]) -> io::Result<()> {
    let length = book.len() as u64;
    if length < MOST_READ {
        print!(rt; "A book of {length} byte{}", plural(length))
    } else {
        print!(rt; "A book of more than 65,536 bytes")
    }
}

fn describe(rt: &HostRuntime, book: &[u8]) -> io::Result<()> {
    print_length(rt, book)?;
    match book::charts(book) {
        Ok(count) => {
            println!(rt; ", {count} chart{}", plural(count.into()))?;
            for number in 1..=count {
                println!(rt; "")?;
                print_chart(rt, book, number)?;
            }
            Ok(())
        }
        Err(fault) => {
            println!(rt; ", refused")?;
            print_fault(rt, fault)
        }
    }
}

fn main(rt: HostRuntime) -> io::Result<()> {
    let book = read_book(&rt)?;
    describe(&rt, book.as_slice())
}
