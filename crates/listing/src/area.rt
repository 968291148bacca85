ghost use Rattle.std.specs.Prelude.{◌≡◌, ◌-◌, ◌≤◌, length};
ghost use Rattle.listing.specs.Placing.{Placed};

use crate::refusal::Refusal;
use crate::sink::Sink;
use crate::strings::write_pairs;

// Writes bytes into a lent area, each behind the one before.
#[derive(Drop)]
pub(crate) struct Area<'a> {
    pub(crate) bytes: &'a mut [u8],
    pub(crate) at: usize,
    ghost within: { at ≤ length bytes.now },
}

impl Sink for Area<'_> {
    ghost room = { λ s. length s.bytes.now - s.at };

    // the piece is written, and the area stays the one that was lent
    ghost takes = { λ s piece t. (t.bytes.ghost_name ≡ s.bytes.ghost_name) × Placed s.at piece s.bytes.now t.at t.bytes.now };

    fn put_all(&mut self, bytes: &[u8]) -> Result<(), Refusal> {
        if self.bytes.len() - self.at < bytes.len() {
            return Err(Refusal::Line);
        }
        // by its range, since of a part lent by `get_mut` through the field the proof does not learn where it is
        let end = self.at + bytes.len();
        self.bytes[self.at..end].copy_from_slice(bytes);
        self.at = end;
        Ok(())
    }

    fn put_pairs(&mut self, bytes: &[u8]) -> Result<(), Refusal> {
        // compared by the half, since the double may wrap
        if (self.bytes.len() - self.at) / 2 < bytes.len() {
            return Err(Refusal::Line);
        }
        let end = self.at + 2 * bytes.len();
        write_pairs(&mut self.bytes[self.at..end], bytes);
        self.at = end;
        Ok(())
    }
}
