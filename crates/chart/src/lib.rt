// Charts of motions: their parts, and how motions are read from bytes.
#![tactic(auto)]

pub mod bytes;
mod read;
mod types;
mod words;

pub use read::read_motion;
pub use types::{Motion, MotionFault, Sign, Timers, UnknownByte, Window};
