ghost use Rattle.std.specs.Prelude.{◌≡◌, [], None};
ghost use Rattle.std.specs.Option.{option_to_list};
ghost use Rattle.source.specs.Reads.{Reads};
ghost use Rattle.ascii.specs.Made.{own_made};
ghost use Rattle.ascii.specs.AsciiHex.{HexState, hex_holds, hex_at, hex_step};
ghost use Rattle.ascii.specs.AsciiHexExamples.{AsciiHexExamples};
ghost use Rattle.ascii.specs.AsciiHexLaw.{AsciiHexLaw};
ghost use Rattle.ascii.specs.AsciiHexSound.{hex_lawful, hex_within};

use crate::made::Made;
use decoding::{Kind, ending_above};
use source::{Damage, Ending, HexTurn, Source, hex_turn};

// ASCIIHexDecode: two hexadecimal digits to a byte, up to `>`.
#[derive(Clone, Copy, Debug, PartialEq, Eq)]
pub struct AsciiHex {
    ready: Option<u8>,
}

impl AsciiHex {
    // Nothing is ready, and nothing has been taken.
    #[tactic(auto, using(crate::proofs::AsciiHexLawful::ascii_hex_law, crate::proofs::AsciiHexLawful::worked_hex))]
    pub fn new() -> AsciiHex
        ensures holds { hex_holds result ≡ record { ready = []; compared = []; kind = tt } }
        ensures laws { AsciiHexLaw }
        ensures examples { AsciiHexExamples }
    {
        AsciiHex { ready: None }
    }
}

// Takes two digits, or up to the end. An ending from below is not passed on by `?`: what ends a step is made into what the step
// made, a `Made`.
fn next_pair<S: Source>(below: &mut S) -> Made<Option<u8>>
    ensures { Reads S.model (hex_at None) (S.held below.old) (own_made option_to_list tt result) (S.held below.new) }
{
    let mut pending = None;
    loop {
        let b = match below.take() {
            Ok(b) => b,
            Err(ending) => return Made::end(ending_above(ending)),
        };
        match hex_turn(pending, b) {
            HexTurn::Wait(half) => pending = half,
            HexTurn::Put(v) => return Made::more(Some(v)),
            HexTurn::Last(v) => return Made {
                ready: Some(v),
                ended: Some(Ending::Clean),
            },
            HexTurn::Done => return Made::end(Ending::Clean),
            HexTurn::Stray => return Made::end(Ending::Damaged(Damage::Stray, 0)),
        }
    }
}

impl Kind for AsciiHex {
    const MOST: usize = 1;

    ghost MOST = { 1 };

    ghost State = { HexState };

    ghost holds = { hex_holds };

    ghost step_of = { hex_step };

    ghost lawful_step = { hex_lawful };

    ghost within = { hex_within };

    fn step<S: Source>(&mut self, below: &mut S) -> Option<Ending> {
        let made = next_pair(below);
        self.ready = made.ready;
        made.ended
    }

    // The last three are those of `Eexec` too: a line each, and a trait or a type for what is ready would have more.
    fn first(&self) -> Option<u8> {
        self.ready
    }

    fn pop(&mut self) {
        self.ready = None;
    }

    fn count(&self) -> usize {
        usize::from(self.ready.is_some())
    }
}
