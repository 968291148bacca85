ghost use Rattle.std.specs.Prelude.{◌≡◌};
ghost use Rattle.listing.specs.Refusals.{refusal_number};

// Why a call was refused; it then changed nothing.
#[derive(Clone, Copy, Debug, PartialEq, Eq)]
pub enum Refusal {
    // the line does not fit its area
    Line = 7,
}

impl Refusal {
    // 7.
    pub fn number(self) -> u8
        ensures { result ≡ refusal_number self }
    {
        self as u8
    }
}
