// The parts of a chart: timers, signs, windows, motions, and the faults of a motion's bytes.
ghost use Rattle.std.specs.Prelude.{◌≤◌};

use thiserror::Error;

// How many timers (clocks) a machine has: 1 to 8. They are numbered from 1.
#[derive(Clone, Copy, PartialEq, Eq, Debug)]
pub struct Timers {
    pub count: u8,
    ghost some: { 1 ≤ count },
    ghost most: { count ≤ 8 },
}

// How a timer's value must stand to a number: ≤, <, ≥, > or =.
#[derive(Clone, Copy, PartialEq, Eq, Debug)]
pub enum Sign {
    AtMost,
    Under,
    AtLeast,
    Over,
    Equal,
}

// A byte that stands for nothing, where one for a sign or a kind is wanted.
#[derive(Clone, Copy, PartialEq, Eq, Debug, Error)]
#[error("the byte {0} stands for nothing")]
pub struct UnknownByte(pub u8);

// A demand on one timer's value (a guard).
#[derive(Clone, Copy, PartialEq, Eq, Debug)]
pub struct Window {
    pub timer: u8,
    pub sign: Sign,
    pub number: u32,
    ghost some: { 1 ≤ timer },
    ghost most: { timer ≤ 8 },
    ghost range: { number ≤ 1000000000 },
}

// One motion (a transition): the windows that must hold after its wait, and the timers that it
// then restarts (resets). It lies in fixed memory: the first `count` of `slots` are its windows.
// Bit i − 1 of `restarts` stands for timer i. A motion is Copy, which an `ArrayVec` of windows is not.
#[derive(Clone, Copy, Debug)]
pub struct Motion {
    pub(crate) slots: [Window; 16],
    pub(crate) count: u8,
    pub(crate) restarts: u8,
    ghost few: { count ≤ 16 },
}

// Why a motion's bytes are refused. A byte counts from the motion's first, which is 0.
#[derive(Clone, Copy, PartialEq, Eq, Debug, Error)]
pub enum MotionFault {
    // fewer than 2 bytes, or windows cut off
    #[error("the motion is cut off")]
    Cut,
    #[error("a motion has at most 16 windows")]
    Windows,
    #[error("a timer is restarted that the chart does not have")]
    Restart,
    // at this byte
    #[error("a window is on a timer that the chart does not have")]
    Timer(u8),
    // at this byte
    #[error("a window's sign is not 1 to 5")]
    Sign(u8),
    // at this byte and the three after it
    #[error("a window's number is over 1,000,000,000")]
    Number(u8),
}
