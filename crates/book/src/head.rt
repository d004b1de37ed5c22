// The head of a chart's part.
ghost use Rattle.std.specs.Prelude.{◌≡◌, Some};
ghost use Rattle.std.specs.Option.{ok_or};
ghost use Rattle.book.specs.Kinds.{kind_of, kind_name};

use chart::{Timers, UnknownByte};
use std::fmt;

// The kinds of bound that a chart may be in.
#[derive(Clone, Copy, PartialEq, Eq, Debug)]
pub enum Kind {
    Tick,
    Edge,
}

impl TryFrom<u8> for Kind {
    type Error = UnknownByte;

    ghost try_from_gives = { λ byte r. r ≡ ok_or (kind_of byte) (record { 0 = byte }) };

    fn try_from(byte: u8) -> Result<Kind, UnknownByte> {
        match byte {
            1 => Ok(Kind::Tick),
            2 => Ok(Kind::Edge),
            _ => Err(UnknownByte(byte)),
        }
    }
}

impl fmt::Display for Kind {
    ghost output = { λ kind. Some (kind_name kind) };

    fn fmt<W: fmt::Write>(&self, f: &mut fmt::Formatter<W>) -> fmt::Result {
        f.write_str(match self {
            Kind::Tick => "Tick",
            Kind::Edge => "Edge",
        })
    }
}

// What a chart's first two bytes say.
#[derive(Clone, Copy, PartialEq, Eq, Debug)]
pub struct Head {
    pub kind: Kind,
    pub timers: Timers,
}
