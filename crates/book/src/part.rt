// A chart's part: its head, and then motions to its end.
ghost use Rattle.std.specs.Prelude.{◌≡◌, ℕ, ◌↔◌, Ok};
ghost use Rattle.std.specs.Result.{result_map_both};
ghost use Rattle.book.specs.Parts.{head_of, count_of, Counts};
ghost use Rattle.book.specs.Reads.{motions_of, coming};

use crate::head::{Head, Kind};
use crate::layout::part;
use crate::types::Motions;
use chart::Timers;
use faults::{AtChart, BookFault, ChartFault};

// The head of a chart's part, or its first fault.
pub fn head_of(part: &[u8]) -> Result<Head, ChartFault>
    ensures { result ≡ head_of part.now }
{
    let [kind, timers, ..] = *part else {
        return Err(ChartFault::Short);
    };
    let Ok(kind) = Kind::try_from(kind) else {
        return Err(ChartFault::Kind);
    };
    let Some(timers) = Timers::new(timers) else {
        return Err(ChartFault::Timers);
    };
    Ok(Head { kind, timers })
}

// The motions of chart `number`, counted from 1, or the first fault of the book or of the chart's head.
pub fn motions(book: &[u8], number: u16) -> Result<Motions<'_>, BookFault>
    ensures { result_map_both (λ m. (m.head, coming m)) (λ e. e) result ≡ motions_of book.now number }
{
    let (start, part) = part(book, number)?;
    let head = head_of(part).map_err(|fault| AtChart {
        chart: number,
        part: start,
        fault,
    })?;
    Ok(Motions {
        chart: number,
        start,
        part,
        head,
        at: 2,
        number: 0,
    })
}

// The checks of a book and of one of its charts, in their order. Apart from `count_motions`, so that the
// theorem there is stated once, and is no goal at each return here.
fn counted(book: &[u8], number: u16) -> Result<u32, BookFault>
    ensures { result ≡ count_of book.now number }
{
    let mut count = 0;
    for motion in motions(book, number)? {
        count = motion?.number;
    }
    Ok(count)
}

// How many motions chart `number` has, counted from 1, or the first fault of the book or of the chart.
pub fn count_motions(book: &[u8], number: u16) -> Result<u32, BookFault>
    ensures value { result ≡ count_of book.now number }
    ensures laid { (count : ℕ) → (result ≡ Ok count) ↔ Counts book.now number count }
{
    counted(book, number)
}
