// The join of two charts' tables, in slices that the caller lends. An inner layer, as `table` is. Nothing
// here allocates.
#![tactic(auto)]

mod joining;

pub use joining::join;
