// The board itself.
ghost use Rattle.std.specs.Prelude.{◌≡◌};

use crate::header::Header;
use bound::Bound;

// A chart's board: a plain header beside a table of bounds that the caller lends.
#[derive(Drop)]
pub struct Board<'a, B: Bound> {
    pub(crate) header: Header,
    pub(crate) table: &'a mut [B],
}

// A caller that keeps boards apart from their tables lays a board down by its header, and resumes it on the
// same table. On another table it stands for nothing.
impl<'a, B: Bound> Board<'a, B> {
    // A board that was laid down.
    pub fn resume(header: Header, table: &'a mut [B]) -> Self
        ensures header { result.header ≡ header }
        ensures same { result.table.now ≡ table.old }
        ensures named { result.table.ghost_name ≡ table.entry.ghost_name }
    {
        Board { header, table }
    }

    // The header, to resume the board by.
    pub fn header(&self) -> Header
        ensures { result ≡ self.now.header }
    {
        self.header
    }
}
