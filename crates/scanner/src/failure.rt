ghost use Rattle.std.specs.Prelude.{◌≡◌};
ghost use Rattle.scanner.specs.Failures.{failure_number};
ghost use Rattle.scanner.specs.Tokens.{bare_fault};

use source::{Ending, Fault};

// Why a token call gave no token.
#[derive(Clone, Copy, Debug, PartialEq, Eq)]
pub enum Failure {
    // refused: the area is under 128 or over 65,535 bytes, and nothing was changed
    Area,
    // a fault, and how many bytes of content stand at the start of the area
    Fault(Fault, usize),
}

impl Failure {
    // 6 for a refusal, else the fault's number.
    pub fn number(self) -> u8
        ensures { result ≡ failure_number self }
    {
        match self {
            Failure::Area => 6,
            Failure::Fault(fault, _) => fault.number(),
        }
    }
}

// An ending where more bytes are needed, and no content stands in the area.
impl From<Ending> for Failure {
    ghost from_gives = { λ ending failure. failure ≡ bare_fault ending };

    fn from(ending: Ending) -> Failure {
        Failure::Fault(Fault::from(ending), 0)
    }
}
