ghost use Rattle.std.specs.Prelude.{◌≡◌, Some};
ghost use Rattle.source.specs.Numbers.{damage_number, damage_numbered, cause_of, depth_of, two_numbers};

use std::fmt;

// What a filter found wrong in the bytes below it, with its number.
#[derive(Clone, Copy, Debug, PartialEq, Eq)]
pub enum Damage {
    // a byte that cannot stand there
    Stray = 21,
    // the end, where a byte was needed
    CutShort = 22,
    // a base-85 group over 4,294,967,295
    Overflow = 23,
    // a base-85 group of one digit
    LoneDigit = 24,
}

// A number that no damage has.
#[derive(Clone, Copy, Debug, PartialEq, Eq)]
pub struct NoDamage;

// How a source stops: cleanly, or by a damage with the number of filters that it has passed, 255 at most. It is no
// `Option` of the damage, since a filter that may have ended holds an `Option` of this, and two of them say less.
#[derive(Clone, Copy, Debug, PartialEq, Eq)]
pub enum Ending {
    Clean,
    // the damage and the depth, in the order in which they are printed
    Damaged(Damage, u8),
}

impl Damage {
    // 21 to 24.
    pub fn number(self) -> u8
        ensures { result ≡ damage_number self }
    {
        self as u8
    }
}

impl TryFrom<u8> for Damage {
    type Error = NoDamage;

    ghost try_from_gives = { λ n r. r ≡ damage_numbered n };

    fn try_from(number: u8) -> Result<Damage, NoDamage> {
        match number {
            21 => Ok(Damage::Stray),
            22 => Ok(Damage::CutShort),
            23 => Ok(Damage::Overflow),
            24 => Ok(Damage::LoneDigit),
            _ => Err(NoDamage),
        }
    }
}

impl Ending {
    // The number as it is printed: 0 for a clean end, else the damage's.
    pub fn cause(self) -> u8
        ensures { result ≡ cause_of self }
    {
        match self {
            Ending::Clean => 0,
            Ending::Damaged(damage, _) => damage.number(),
        }
    }

    // The depth as it is printed: 0 for a clean end.
    pub fn depth(self) -> u8
        ensures { result ≡ depth_of self }
    {
        match self {
            Ending::Clean => 0,
            Ending::Damaged(_, depth) => depth,
        }
    }
}

// Its two numbers.
impl fmt::Display for Ending {
    ghost output = { λ e. Some (two_numbers (cause_of e) (depth_of e)) };

    fn fmt<W: fmt::Write>(&self, f: &mut fmt::Formatter<W>) -> fmt::Result {
        write!(f, "{} {}", self.cause(), self.depth())
    }
}
