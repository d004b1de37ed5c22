// The working of a motion on a chart's table, in slices that the caller lends. An inner layer, as `table`
// is. Nothing here allocates.
#![tactic(auto)]

mod star;
mod windows;
mod working;

pub use working::motion;
