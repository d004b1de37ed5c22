// Boards: a header and a lent table of bounds, and the calls on them.
#![tactic(auto)]

mod board;
mod calls;
mod header;
mod settle;
mod working;

pub use board::Board;
pub use header::{Header, State};
