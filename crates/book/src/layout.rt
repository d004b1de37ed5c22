// The layout of a book: how many charts it has, and the part that each one's pair names.
ghost use Rattle.std.specs.Prelude.{◌≡◌, ◌+◌, ◌-◌, ◌*◌, ◌^◌, ◌<◌, ◌≤◌, true, ◌↔◌, length, is_ok, IfOk};
ghost use Rattle.std.specs.Result.{result_map_both};
ghost use Rattle.book.specs.Layout.{offset, size, Sound, charts_of, place_of, extent_pair, handed, found};

use chart::bytes::{u16_at, u32_at};
use faults::BookFault;
use std::ops::Range;

const MOST_BYTES: usize = 65536;

const MOST_CHARTS: u16 = 64;

// The place that pair k names, counted from 0.
fn pair(book: &[u8], k: u16) -> Range<usize>
    requires { 10 + 8 * k ≤ length book.now }
    ensures start { result.start ≡ offset book.now k }
    ensures end { result.end ≡ offset book.now k + size book.now k }
    ensures small { (offset book.now k < 2 ^ 32) × (size book.now k < 2 ^ 32) }
{
    let at = 2 + 8 * k as usize;
    let start = u32_at(book, at) as usize;
    start..start + u32_at(book, at + 4) as usize
}

// The checks of a book's layout, in their order. Apart from `charts`, so that the theorem there is stated
// once, and is no goal at each return here.
fn checked(book: &[u8]) -> Result<u16, BookFault>
    ensures { result ≡ charts_of book.now }
{
    if book.len() < 2 || book.len() > MOST_BYTES {
        return Err(BookFault::Length);
    }
    let count = u16_at(book, 0);
    if count == 0 || count > MOST_CHARTS {
        return Err(BookFault::Count);
    }
    let mut least = 2 + 8 * count as usize;
    if book.len() < least {
        return Err(BookFault::Cut);
    }
    // A fault names k, and `place` reads one pair by its number: in chunks of eight bytes this is no shorter.
    for k in 0..count {
        let place = pair(book, k);
        if place.start < least {
            return Err(BookFault::Early(k));
        }
        least = place.end;
        if least > book.len() {
            return Err(BookFault::Late(k));
        }
    }
    Ok(count)
}

// How many charts the book has, or the first fault of its layout.
pub fn charts(book: &[u8]) -> Result<u16, BookFault>
    ensures value { result ≡ charts_of book.now }
    ensures sound { (is_ok result ≡ true) ↔ Sound book.now }
{
    checked(book)
}

// The place of chart `number`, counted from 1.
pub(crate) fn place(book: &[u8], number: u16) -> Result<Range<usize>, BookFault>
    ensures value { result_map_both extent_pair (λ e. e) result ≡ place_of book.now number }
    ensures within { IfOk result (λ p. (p.start ≤ p.end) × (p.end ≤ length book.now) × (length book.now ≤ 65536)) }
{
    let count = charts(book)?;
    if number == 0 || number > count {
        return Err(BookFault::Missing);
    }
    Ok(pair(book, number - 1))
}

// The part of chart `number`, counted from 1, and the byte of the book at which it begins. Whoever reads a chart
// gets its part here.
pub(crate) fn part(book: &[u8], number: u16) -> Result<(u32, &[u8]), BookFault>
    ensures bytes { result_map_both (λ p. (p.0, p.1.now)) (λ e. e) result ≡ found book.now number }
    ensures place { IfOk result (λ p. p.1.ref_ptr ≡ (book.entry.ref_ptr.0, book.entry.ref_ptr.1 + offset book.now (number - 1))) }
    ensures short { IfOk result (λ p. length p.1.now ≤ 65536) }
{
    let place = place(book, number)?;
    Ok((place.start as u32, &book[place]))
}

// Chart `number`, counted from 1: the part of the book that its pair names.
pub fn chart(book: &[u8], number: u16) -> Result<&[u8], BookFault>
    ensures bytes { result_map_both (λ x. x.now) (λ e. e) result ≡ handed book.now number }
    ensures place { IfOk result (λ p. p.ref_ptr ≡ (book.entry.ref_ptr.0, book.entry.ref_ptr.1 + offset book.now (number - 1))) }
{
    let (_, part) = part(book, number)?;
    Ok(part)
}
