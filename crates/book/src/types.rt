// A chart's motions while they are read.
ghost use Rattle.std.specs.Prelude.{◌≡◌, ◌+◌, ◌≤◌, length};

use crate::head::Head;
use chart::Motion;

// A motion of a chart, and its number, counted from 1.
#[derive(Clone, Copy, Debug)]
pub struct Numbered {
    pub number: u32,
    pub motion: Motion,
}

// The motions of chart `chart` from byte `at` of its part on, after `number` others. The part begins
// at byte `start` of the book. A motion that is refused is the last.
#[derive(Drop)]
pub struct Motions<'a> {
    pub(crate) chart: u16,
    pub(crate) start: u32,
    pub(crate) part: &'a [u8],
    pub(crate) head: Head,
    pub(crate) at: usize,
    pub(crate) number: u32,
    ghost short: { length part.now ≤ 65536 },
    ghost within: { at ≤ length part.now },
    ghost few: { number + 2 ≤ at },
}

impl<'a> Motions<'a> {
    // The chart's head.
    pub fn head(&self) -> Head
        ensures { result ≡ self.now.head }
    {
        self.head
    }
}
