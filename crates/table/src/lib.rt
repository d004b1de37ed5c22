// Tables of bounds (difference bound matrices), in slices that the caller lends: places, the empty chart's
// table, pivots, limits. An inner layer: its functions ask that the slices are long enough. What limits tell
// is said of tables with no size above 2^40. Nothing here allocates.
#![tactic(auto)]

mod cells;
mod filling;
mod found;
mod limits;
mod opening;
mod pivots;
mod view;

pub use cells::{clear, pick, read, row_start};
pub use filling::{all_small, fill, fill_row};
pub use found::{Found, MOST_SIZE};
pub use limits::{is_name, sum_or_open};
pub use opening::empty;
pub use pivots::{pivot, relax};
pub use view::{Table, TwoTables};
