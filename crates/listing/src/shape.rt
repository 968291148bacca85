ghost use Rattle.std.specs.Prelude.{ℕ, List};
ghost use Rattle.std.specs.List.{flat_map};
ghost use Rattle.listing.specs.Puts.{Puts};

use crate::refusal::Refusal;
use crate::sink::Sink;

// How a content is put byte by byte, as a name is.
pub(crate) trait Shape {
    // what shows a byte
    ghost shows: { ℕ → List ℕ };

    // Puts a byte as it is shown.
    fn put_byte<S: Sink>(out: &mut S, b: u8) -> Result<(), Refusal>
        ensures { Puts S.room S.takes out.old (shows b) result out.new };

    // Puts a content as it is shown.
    final fn put_each<S: Sink>(out: &mut S, content: &[u8]) -> Result<(), Refusal>
        ensures { Puts S.room S.takes out.old (flat_map shows content.now) result out.new }
    {
        for b in content {
            Self::put_byte(out, *b)?;
        }
        Ok(())
    }
}
