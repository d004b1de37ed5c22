// The motions of a chart, one after the other.
ghost use Rattle.std.specs.Prelude.{◌≡◌, ◌<◌, Some, length};
ghost use Rattle.std.specs.Iterator.{YieldsFirstBy, item_count};
ghost use Rattle.std.specs.Result.{result_map_both};
ghost use Rattle.chart.specs.Charts.{held, held_with};
ghost use Rattle.book.specs.Reads.{numbered, motion_words, next_of, coming};

use crate::types::{Motions, Numbered};
use chart::{Motion, read_motion};
use faults::{AtChart, AtMotion, BookFault, ChartFault};
use std::fmt;

impl fmt::Display for Numbered {
    ghost output = { λ x. Some (motion_words x.number (held x.motion)) };

    fn fmt<W: fmt::Write>(&self, f: &mut fmt::Formatter<W>) -> fmt::Result {
        write!(f, "motion {}: {}", self.number, self.motion)
    }
}

impl<'a> Motions<'a> {
    // The motion that comes next and how many bytes it uses, or its fault, with its number and its place.
    fn read(&self) -> Result<(Motion, usize), ChartFault>
        requires { self.now.at < length self.now.part.now }
        ensures { result_map_both held_with (λ e. e) result ≡ next_of self.now }
    {
        let at = self.at;
        let motion = self.number + 1;
        let read = read_motion(&self.part[at..], self.head.timers).map_err(|fault| AtMotion {
            motion,
            byte: at as u32,
            fault: fault.into(),
        })?;
        Ok(read)
    }
}

impl<'a> Iterator for Motions<'a> {
    type Item = Result<Numbered, BookFault>;

    ghost next_gives = { YieldsFirstBy (result_map_both numbered (λ e. e)) coming };

    ghost remaining = { item_count coming };

    fn next(&mut self) -> Option<Result<Numbered, BookFault>> {
        let end = self.part.len();
        if self.at == end {
            return None;
        }
        let number = self.number + 1;
        match self.read() {
            Ok((motion, used)) => {
                self.at += used;
                self.number = number;
                Some(Ok(Numbered { number, motion }))
            }
            Err(fault) => {
                self.at = end;
                let at_chart = AtChart {
                    chart: self.chart,
                    part: self.start,
                    fault,
                };
                Some(Err(at_chart.into()))
            }
        }
    }
}
