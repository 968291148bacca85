ghost use Rattle.std.specs.Prelude.{ℕ, List, [], ◌∷◌};
ghost use Rattle.listing.specs.Puts.{Puts};
ghost use Rattle.listing.specs.Shown.{hexadecimal};

use crate::refusal::Refusal;

// What takes the bytes of a line one after another, as long as there is room.
pub(crate) trait Sink {
    // how many more bytes fit
    ghost room: { Self → ℕ };

    // what it is before and after it takes some bytes
    ghost takes: { Self → List ℕ → Self → Type 0 };

    fn put_all(&mut self, bytes: &[u8]) -> Result<(), Refusal>
        ensures { Puts room takes self.old bytes.now result self.new };

    // Puts each byte as two hexadecimal digits, for all of which room is asked once.
    fn put_pairs(&mut self, bytes: &[u8]) -> Result<(), Refusal>
        ensures { Puts room takes self.old (hexadecimal bytes.now) result self.new };

    final fn put(&mut self, b: u8) -> Result<(), Refusal>
        ensures { Puts room takes self.old (b ∷ []) result self.new }
    {
        self.put_all(&[b])
    }
}
