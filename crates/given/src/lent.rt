ghost use Rattle.std.specs.Prelude.{◌≡◌, false, length};
ghost use Rattle.given.specs.Lent.{Held, given_model, given_lawful, held_by};

use source::{Ending, Source};

// A source over bytes that are lent, with an ending as given. It remembers whether the byte or the ending that comes
// next was looked at and not taken, and so is no `Memory` with an ending.
#[derive(Drop)]
pub struct Given<'a> {
    rest: &'a [u8],
    ending: Ending,
    seen: bool,
}

impl<'a> Given<'a> {
    // A source of these bytes and this ending, not looked at.
    pub fn new(bytes: &'a [u8], ending: Ending) -> Given<'a>
        ensures { held_by result ≡ record { rest = bytes.now; ending = ending; seen = false } }
    {
        Given {
            rest: bytes,
            ending,
            seen: false,
        }
    }

    // How many bytes are left.
    pub fn left(&self) -> usize
        ensures { result ≡ length (held_by self.now).rest }
    {
        self.rest.len()
    }

    // Whether what comes next was looked at.
    pub fn was_looked_at(&self) -> bool
        ensures { result ≡ (held_by self.now).seen }
    {
        self.seen
    }
}

impl<'a> Source for Given<'a> {
    ghost Held = { Held };

    ghost held = { held_by };

    ghost model = { given_model };

    ghost lawful = { given_lawful };

    fn look(&mut self) -> Result<u8, Ending> {
        self.seen = true;
        match self.rest {
            [b, ..] => Ok(*b),
            [] => Err(self.ending),
        }
    }

    fn take(&mut self) -> Result<u8, Ending> {
        match self.rest {
            [b, rest @ ..] => {
                self.rest = rest;
                self.seen = false;
                Ok(*b)
            }
            // where nothing is left, a take is a look
            [] => self.look(),
        }
    }
}

#[cfg(test)]
mod tests {
    use super::*;

    // What a look and two takes answer.
    fn asked<S: Source>(source: &mut S) -> [Result<u8, Ending>; 3] {
        [source.look(), source.take(), source.take()]
    }

    #[test]
    fn answers_bytes_and_then_its_ending(rt: HostRuntime) {
        let mut source = Given::new(b"a", Ending::Clean);
        assert_eq!(rt; (source.left(), source.was_looked_at()), (1, false));
        assert_eq!(rt;
            asked(&mut source),
            [Ok(b'a'), Ok(b'a'), Err(Ending::Clean)]
        );
        assert_eq!(rt; (source.left(), source.was_looked_at()), (0, true));
    }
}
