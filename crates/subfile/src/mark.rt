#![tactic(auto, unfolding(crate::specs::Marks::mark_of))]

ghost use Rattle.std.specs.Prelude.{◌≡◌, ◌≤◌, length, codes, Some};

use std::error::Error;
use std::fmt;

// The bytes that mark the end of a part of the data, 16 at the most: an array with a length, since a filter has a fixed size
// and is copied, and takes no memory elsewhere; `ArrayVec` of the kit is not `Copy`.
#[derive(Clone, Copy)]
pub struct Mark {
    bytes: [u8; 16],
    len: usize,
    ghost ok: { (len ≤ 16) × (length bytes ≡ 16) },
}

// A mark of more than 16 bytes is refused.
#[derive(Clone, Copy, Debug, PartialEq, Eq)]
pub struct MarkTooLong;

impl MarkTooLong {
    ghost use Rattle.subfile.specs.Marks.{refusal_number};

    // 3.
    pub fn number(self) -> u8
        ensures { result ≡ refusal_number self }
    {
        3
    }
}

impl fmt::Display for MarkTooLong {
    ghost output = { λ _. Some (codes "a mark of over 16 bytes") };

    fn fmt<W: fmt::Write>(&self, f: &mut fmt::Formatter<W>) -> fmt::Result {
        f.write_str("a mark of over 16 bytes")
    }
}

impl Error for MarkTooLong {}

impl Mark {
    ghost use Rattle.subfile.specs.Marks.{mark_of, marked, mark_for};

    // The mark of these bytes, which may be none.
    pub fn new(bytes: &[u8]) -> Result<Mark, MarkTooLong>
        ensures { marked result ≡ mark_for bytes.now }
    {
        let len = bytes.len();
        if len > 16 {
            return Err(MarkTooLong);
        }
        let mut all = [0; 16];
        all[..len].copy_from_slice(bytes);
        Ok(Mark { bytes: all, len })
    }

    pub(crate) fn as_slice(&self) -> &[u8]
        ensures { result.now ≡ mark_of self.now }
    {
        &self.bytes[..self.len]
    }
}
