// What calls answer, as it is printed.
use crate::kinds::{Kind, Printed};
use faults::{BoardFault, Fault};
use runs::Name;
use std::fmt;

// What a call tells that is not refused.
#[derive(Drop)]
pub enum Told<B: Kind> {
    Made,
    Done,
    Used(usize),
    Yes,
    No,
    Count(u32),
    // the first limit that is not tighter
    Looser(Name),
    Limit(B),
    Span(B, B),
    Table(Vec<B>),
}

fn write_table<W: fmt::Write, B: Kind>(f: &mut fmt::Formatter<W>, table: &[B]) -> fmt::Result {
    for (place, bound) in table.iter().enumerate() {
        if place > 0 {
            write!(f, " ")?;
        }
        write!(f, "{}", Printed(*bound))?;
    }
    Ok(())
}

impl<B: Kind> fmt::Display for Told<B> {
    fn fmt<W: fmt::Write>(&self, f: &mut fmt::Formatter<W>) -> fmt::Result {
        match self {
            Told::Made => write!(f, "0"),
            Told::Done => write!(f, "ok"),
            Told::Used(bytes) => write!(f, "{bytes}"),
            Told::Yes => write!(f, "yes"),
            Told::No => write!(f, "no"),
            Told::Count(count) => write!(f, "{count}"),
            Told::Looser(Name { a, b, c, d }) => write!(f, "{a} {b} {c} {d}"),
            Told::Limit(bound) => write!(f, "{}", Printed(*bound)),
            Told::Span(most, least) => write!(f, "{} {}", Printed(*most), Printed(*least)),
            Told::Table(table) => write_table(f, table.as_slice()),
        }
    }
}

// What a work table holds after the call that it was lent to.
#[derive(Clone, Copy)]
pub enum Work {
    // open in the places that the call uses, and the filler in the others
    Open,
    // the filler, as before
    Kept,
    // something else, which is wrong
    Other,
}

impl fmt::Display for Work {
    fn fmt<W: fmt::Write>(&self, f: &mut fmt::Formatter<W>) -> fmt::Result {
        match self {
            Work::Open => write!(f, "open"),
            Work::Kept => write!(f, "kept"),
            Work::Other => write!(f, "other"),
        }
    }
}

// All that is printed of a call.
#[derive(Drop)]
pub struct Answer<B: Kind> {
    pub told: Result<Told<B>, BoardFault>,
    pub work: Option<Work>,
}

fn write_fault<W: fmt::Write>(f: &mut fmt::Formatter<W>, fault: BoardFault) -> fmt::Result {
    let Fault {
        number,
        level,
        chart,
        motion,
        byte,
    } = fault.into();
    write!(f, "fault {number} {level} {chart} {motion} {byte}")
}

impl<B: Kind> fmt::Display for Answer<B> {
    fn fmt<W: fmt::Write>(&self, f: &mut fmt::Formatter<W>) -> fmt::Result {
        match &self.told {
            Ok(told) => write!(f, "{told}")?,
            Err(fault) => write_fault(f, *fault)?,
        }
        match self.work {
            None => Ok(()),
            Some(work) => write!(f, " {work}"),
        }
    }
}
