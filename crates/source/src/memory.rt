ghost use Rattle.std.specs.Prelude.{◌≡◌, ℕ, List};
ghost use Rattle.source.specs.Memory.{memory_model, memory_lawful, unread};
ghost use Rattle.source.specs.declared.ending.Ending.TheVariants.{Clean};

use crate::ending::Ending;
use crate::interface::Source;

// A source over bytes that are lent, with a clean end.
#[derive(Drop)]
pub struct Memory<'a> {
    rest: &'a [u8],
}

impl<'a> Memory<'a> {
    // A source whose rest is the bytes given.
    pub fn new(bytes: &'a [u8]) -> Memory<'a>
        ensures rest { memory_model.rest (unread result) ≡ bytes.now }
        ensures ending { memory_model.ending (unread result) ≡ Clean }
    {
        Memory { rest: bytes }
    }
}

impl<'a> Source for Memory<'a> {
    ghost Held = { List ℕ };

    ghost held = { unread };

    ghost model = { memory_model };

    ghost lawful = { memory_lawful };

    fn look(&mut self) -> Result<u8, Ending> {
        match self.rest {
            [b, ..] => Ok(*b),
            [] => Err(Ending::Clean),
        }
    }

    fn take(&mut self) -> Result<u8, Ending> {
        match self.rest {
            [b, rest @ ..] => {
                self.rest = rest;
                Ok(*b)
            }
            [] => Err(Ending::Clean),
        }
    }
}
