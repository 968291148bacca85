ghost use Rattle.std.specs.Prelude.{◌≡◌};
ghost use Rattle.source.specs.Model.{Model, first};
ghost use Rattle.source.specs.Laws.{Lawful};

use crate::ending::Ending;

// Bytes to be read one after another, and how they end. A look and a take answer a byte, or the ending where none is left.
pub trait Source {
    // what it holds, as far as anything can tell
    ghost Held: { Type 0 };

    ghost held: { Self → Held };

    // over what it holds: the bytes still to come, how they end, and what a look and a take leave
    ghost model: { Model Held };

    // The next byte, which stays.
    fn look(&mut self) -> Result<u8, Ending>
        ensures answer { result ≡ first (model.rest (held self.old)) (model.ending (held self.old)) }
        ensures after { held self.new ≡ model.looked (held self.old) };

    // The next byte, which is gone then.
    fn take(&mut self) -> Result<u8, Ending>
        ensures answer { result ≡ first (model.rest (held self.old)) (model.ending (held self.old)) }
        ensures after { held self.new ≡ model.taken (held self.old) };

    // that a look changes neither rest nor ending, and that a take removes the first byte
    ghost lawful: { Lawful Held model };
}
