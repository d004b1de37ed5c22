// Signs, windows and motions in words.
ghost use Rattle.std.specs.Prelude.{◌≡◌, true, Some};
ghost use Rattle.chart.specs.Charts.{held};
ghost use Rattle.chart.specs.Words.{sign_words, window_words, windows_words, separator, restarts_from, parts_words};

use crate::types::{Motion, Sign, Window};
use std::fmt;

impl fmt::Display for Sign {
    ghost output = { λ sign. Some (sign_words sign) };

    fn fmt<W: fmt::Write>(&self, f: &mut fmt::Formatter<W>) -> fmt::Result {
        f.write_str(match self {
            Sign::AtMost => "at most",
            Sign::Under => "under",
            Sign::AtLeast => "at least",
            Sign::Over => "over",
            Sign::Equal => "exactly",
        })
    }
}

impl fmt::Display for Window {
    ghost output = { λ window. Some (window_words window) };

    fn fmt<W: fmt::Write>(&self, f: &mut fmt::Formatter<W>) -> fmt::Result {
        write!(f, "timer {} {} {}", self.timer, self.sign, self.number)
    }
}

// A motion's windows, each with a semicolon after it.
#[derive(Clone, Copy)]
struct Windows<'a>(&'a [Window]);

impl<'a> fmt::Display for Windows<'a> {
    ghost output = { λ windows. Some (windows_words windows.0.now) };

    fn fmt<W: fmt::Write>(&self, f: &mut fmt::Formatter<W>) -> fmt::Result {
        for window in self.0 {
            write!(f, "{window}; ")?;
        }
        Ok(())
    }
}

// What stands before a timer: nothing before the first.
fn separator(first: bool) -> &'static str
    ensures { result.now ≡ separator first }
{
    if first { "" } else { ", " }
}

// The timers that a motion restarts.
#[derive(Clone, Copy)]
struct Restarts<'a>(&'a Motion);

impl<'a> fmt::Display for Restarts<'a> {
    ghost output = { λ restarts. Some (restarts_from (held restarts.0.now) 8 1 true) };

    fn fmt<W: fmt::Write>(&self, f: &mut fmt::Formatter<W>) -> fmt::Result {
        let mut first = true;
        for timer in 1u8..9 {
            if self.0.restarts(timer) {
                write!(f, "{}timer {timer}", separator(first))?;
                first = false;
            }
        }
        if first { f.write_str("none") } else { Ok(()) }
    }
}

impl fmt::Display for Motion {
    ghost output = { λ motion. Some (parts_words (held motion)) };

    fn fmt<W: fmt::Write>(&self, f: &mut fmt::Formatter<W>) -> fmt::Result {
        write!(f, "{}restarts {}", Windows(self.windows()), Restarts(self))
    }
}
