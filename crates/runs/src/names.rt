// The names of limits.

// The name of a limit, which bounds start(a) − start(b) + end(c) − end(d).
#[derive(Clone, Copy, PartialEq, Eq, Debug)]
pub struct Name {
    pub a: u8,
    pub b: u8,
    pub c: u8,
    pub d: u8,
}
