ghost use Rattle.std.specs.Prelude.{⊤};

use crate::refusal::Refusal;
use crate::sink::Sink;

// Counts bytes off the room that they have, and keeps none.
#[derive(Drop)]
pub(crate) struct Room(pub(crate) usize);

impl Sink for Room {
    ghost room = { λ s. s.0 };

    ghost takes = { λ _ _ _. ⊤ };

    fn put_all(&mut self, bytes: &[u8]) -> Result<(), Refusal> {
        self.0 = self.0.checked_sub(bytes.len()).ok_or(Refusal::Line)?;
        Ok(())
    }

    fn put_pairs(&mut self, bytes: &[u8]) -> Result<(), Refusal> {
        // compared by the half, since the double may wrap
        if self.0 / 2 < bytes.len() {
            return Err(Refusal::Line);
        }
        self.0 -= 2 * bytes.len();
        Ok(())
    }
}
