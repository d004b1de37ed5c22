// Books of charts: their layout, their charts' heads and motions, and their faults.
#![tactic(auto)]

mod head;
mod layout;
mod part;
mod reading;
mod types;

pub use faults::{AtChart, AtMotion, BoardFault, BookFault, ChartFault, Fault};
pub use head::{Head, Kind};
pub use layout::{chart, charts};
pub use part::{count_motions, head_of, motions};
pub use types::{Motions, Numbered};
