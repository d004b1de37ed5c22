// Why a book, a chart, a board or a motion is refused, and the five numbers that tell it.
#![tactic(auto)]

mod told;
mod types;

pub use types::{AtChart, AtMotion, BoardFault, BookFault, ChartFault, Fault};
