ghost use Rattle.std.specs.Prelude.{◌≡◌, Some};
ghost use Rattle.source.specs.Numbers.{fault_number, fault_depth, two_numbers, unended};

use crate::ending::{Damage, Ending};
use std::fmt;

// Why a reader of a source failed.
#[derive(Clone, Copy, Debug, PartialEq, Eq)]
pub enum Fault {
    // a damage of the source, passed up with the number of filters that it has passed
    Damage(Damage, u8),
    // the 128th byte of a run, or content beyond the area
    Limit,
    // a clean end inside a string, or behind `<` or `>`
    Unended,
    // a radix number over 32 bits
    RadixRange,
    // a stray byte in a hex string
    StrayInHex,
    // `)`, or `>` without `>`
    StrayDelimiter,
}

impl Fault {
    // The number of its cause; by hand, since an enum that carries a damage has no `as`.
    pub fn number(self) -> u8
        ensures { result ≡ fault_number self }
    {
        match self {
            Fault::Damage(damage, _) => damage.number(),
            Fault::Limit => 31,
            Fault::Unended => 32,
            Fault::RadixRange => 33,
            Fault::StrayInHex => 35,
            Fault::StrayDelimiter => 36,
        }
    }

    // The depth as it is printed: how many filters a damage has passed, and 0 for every other fault.
    pub fn depth(self) -> u8
        ensures { result ≡ fault_depth self }
    {
        match self {
            Fault::Damage(_, depth) => depth,
            _ => 0,
        }
    }
}

// What an ending is where more bytes are needed: a clean end is the fault 32, a damage passes up as it is.
impl From<Ending> for Fault {
    ghost from_gives = { λ ending fault. fault ≡ unended ending };

    fn from(ending: Ending) -> Fault {
        match ending {
            Ending::Clean => Fault::Unended,
            Ending::Damaged(damage, depth) => Fault::Damage(damage, depth),
        }
    }
}

// Its two numbers. As that of an `Ending`, a line with two methods.
impl fmt::Display for Fault {
    ghost output = { λ fault. Some (two_numbers (fault_number fault) (fault_depth fault)) };

    fn fmt<W: fmt::Write>(&self, f: &mut fmt::Formatter<W>) -> fmt::Result {
        write!(f, "{} {}", self.number(), self.depth())
    }
}
