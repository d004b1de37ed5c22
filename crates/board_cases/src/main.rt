// A test of boards: scripts of calls on standard input, one call a line. The program prints each line, and behind
// each call what it answers. `stdout` has what the rules give.
#![tactic(auto)]

mod answers;
mod boards;
mod kinds;
mod lines;

use crate::boards::Boards;
use crate::lines::{BadLine, Line};
use anyhow::Context;
use bound::edge::Edge;
use bound::tick::Tick;
use std::alloc::Global;

// The boards of a script, which are all of its kind.
#[derive(Drop)]
enum Script {
    Ticks(Boards<Tick>),
    Edges(Boards<Edge>),
}

impl Script {
    // A script in which no board was made.
    fn new(heap: Global, kind: &str) -> Result<Script, BadLine> {
        match kind {
            "1" => Ok(Script::Ticks(Boards::new(heap))),
            "2" => Ok(Script::Edges(Boards::new(heap))),
            _ => Err(BadLine::Kind),
        }
    }

    fn print(&mut self, rt: &HostRuntime, text: &str, line: &Line) -> Result<(), BadLine> {
        match self {
            Script::Ticks(boards) => boards.print(rt, text, line),
            Script::Edges(boards) => boards.print(rt, text, line),
        }
    }
}

// A line that begins a script replaces the one before.
fn print_line(rt: &HostRuntime, script: &mut Option<Script>, text: &str) -> Result<(), BadLine> {
    if text.is_empty() || text.starts_with('#') {
        return Ok(());
    }
    let words: Vec<&str> = text.split_whitespace().collect(rt.alloc())?;
    if let ["script", _, kind] = *words.as_slice() {
        *script = Some(Script::new(rt.alloc(), kind)?);
        println!(rt; "{text}")?;
        return Ok(());
    }
    let line = Line::read(rt.alloc(), words.as_slice())?;
    let script = script.as_mut().ok_or(BadLine::NoScript)?;
    script.print(rt, text, &line)
}

fn main(rt: HostRuntime) -> anyhow::Result<()> {
    let mut script = None;
    for (before, line) in rt.lines(rt.alloc()).enumerate() {
        print_line(&rt, &mut script, line?.as_str()).context(format_args!(
            "line {}",
            before.saturating_add(1)
        ))?;
    }
    Ok(())
}
