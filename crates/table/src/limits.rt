// The limits that a table gives, and the first name under which one table's limit is looser than another's.
ghost use Rattle.std.specs.Prelude.{◌≡◌, ◌+◌, ◌*◌, ◌<◌, ◌≤◌, true, false, length};
ghost use Rattle.runs.specs.Limits.{NameOf};
ghost use Rattle.runs.specs.Normal.{IsLimit};
ghost use Rattle.runs.specs.Search.{Passes, Fails};
ghost use Rattle.table.specs.Cells.{cell, Small};
ghost use Rattle.table.specs.Compared.{answered, is_pair, is_name, Parts, limit_at, tighter_at, AllTighter, FoundFirst};

use crate::view::{Table, TwoTables};
use bound::{Bound, keep_tighter};
use chart::Timers;
use runs::Name;

// Whether two parts of a name are up to n, and equal only where both are 0.
fn is_pair(n: u8, x: u8, y: u8) -> bool
    ensures { result ≡ is_pair n x y }
{
    x <= n && y <= n && (x != y || x == 0)
}

// Whether this names a limit for these timers.
pub fn is_name(name: Name, timers: Timers) -> bool
    ensures value { result ≡ is_name timers.count name }
    ensures yes { result ≡ true → NameOf timers.count name }
    ensures no { result ≡ false → NameOf timers.count name → ⊥ }
{
    let n = timers.count;
    is_pair(n, name.a, name.b)
        && is_pair(n, name.c, name.d)
        && (name.a, name.b, name.c, name.d) != (0, 0, 0, 0)
}

// The sum of two bounds, or open where the kind answers none.
pub fn sum_or_open<B: Bound>(first: B, second: B) -> B
    ensures { result ≡ answered B.meaning (B.meaning.sum first second) }
{
    first.sum(second).unwrap_or_else(|| B::open())
}

impl<'a, B: Bound> Table<'a, B> {
    // The limit under a name: the tighter of the sums of places (b, a) and (n + 1 + d, n + 1 + c), and of
    // places (n + 1 + d, a) and (b, n + 1 + c). In a table with no size above 2^40 both sums are answered.
    pub fn limit(&self, name: Name) -> B
        requires parts { Parts self.now.timers.count name }
        ensures value { result ≡ limit_at B.meaning self.now.timers.count self.now.cells.now name }
        ensures is { Small B.meaning (2 * self.now.timers.count + 2) self.now.cells.now → IsLimit B.meaning self.now.timers.count self.now.cells.now name result }
    {
        let middle = self.timers.count as usize + 1;
        let a = name.a as usize;
        let b = name.b as usize;
        let c = middle + name.c as usize;
        let d = middle + name.d as usize;
        let straight = sum_or_open(self.read(b, a), self.read(d, c));
        let crossed = sum_or_open(self.read(d, a), self.read(b, c));
        keep_tighter(straight, crossed)
    }
}

impl<'a, B: Bound> TwoTables<'a, B> {
    // Whether this is a name under which the first table's limit is not tighter than the second's.
    fn looser_at(&self, name: Name) -> bool
        requires parts { Parts self.now.timers.count name }
        ensures yes { result ≡ true → Fails self.now.timers.count (tighter_at B.meaning self.now.timers.count self.now.first.now self.now.second.now) name.a name.b name.c name.d }
        ensures no { result ≡ false → Passes self.now.timers.count (tighter_at B.meaning self.now.timers.count self.now.first.now self.now.second.now) name.a name.b name.c name.d }
    {
        let timers = self.timers;
        let first = Table {
            cells: self.first,
            timers,
        };
        let second = Table {
            cells: self.second,
            timers,
        };
        is_name(name, timers) && !first.limit(name).tighter(second.limit(name))
    }

    // Whether every place of the first table is tighter than the second's.
    fn all_tighter(&self) -> bool
        ensures yes { result ≡ true → AllTighter B.meaning ((2 * self.now.timers.count + 2) * (2 * self.now.timers.count + 2)) self.now.first.now self.now.second.now }
        ensures no { result ≡ false → AllTighter B.meaning ((2 * self.now.timers.count + 2) * (2 * self.now.timers.count + 2)) self.now.first.now self.now.second.now → ⊥ }
    {
        let side = 2 * self.timers.count as usize + 2;
        let count = side * side;
        let first = &self.first[..count];
        first
            .iter()
            .zip(&self.second[..count])
            .all(|(held, bound)| held.tighter(*bound))
    }

    // The first name, in rising order of a, then b, c and d, under which the first table's limit is not
    // tighter than the second's; none where it is tighter under every name. Tables with no size above 2^40
    // are compared so.
    pub fn first_looser(&self) -> Option<Name>
        ensures { Small B.meaning (2 * self.now.timers.count + 2) self.now.first.now → Small B.meaning (2 * self.now.timers.count + 2) self.now.second.now → FoundFirst B.meaning self.now.timers.count self.now.first.now self.now.second.now result }
    {
        // sums of tighter bounds are tighter, where they are answered
        if self.all_tighter() {
            return None;
        }
        self.first_name()
    }

    // As `first_looser`, by a look at every name.
    fn first_name(&self) -> Option<Name>
        ensures { FoundFirst B.meaning self.now.timers.count self.now.first.now self.now.second.now result }
    {
        let n = self.timers.count;
        // over the parts of names, in the order of names
        for a in 0..=n {
            for b in 0..=n {
                for c in 0..=n {
                    for d in 0..=n {
                        let name = Name { a, b, c, d };
                        if self.looser_at(name) {
                            return Some(name);
                        }
                    }
                }
            }
        }
        None
    }
}
