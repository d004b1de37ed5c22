// The whole promise: any list of calls on any boards of one kind.
#![tactic(auto)]

mod calls;
mod lending;
mod on;
mod run;
mod slots;
mod steps;

pub use calls::{Answer, Call};
pub use run::replay;
pub use slots::Slot;
