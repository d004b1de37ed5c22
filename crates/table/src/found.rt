// The largest size that a chart's table may have: 2^40.
pub const MOST_SIZE: u64 = 1 << 40;

// What the working of a motion or a join finds.
#[derive(Clone, Copy, PartialEq, Eq, Debug)]
pub enum Found {
    // a run is left, and the table is the longer chart's
    Runs,
    // no run is left; the table stays
    Never,
    // a run is left, but a size in the new table is above 2^40; the table stays
    Large,
}
