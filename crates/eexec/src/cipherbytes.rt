ghost use Rattle.std.specs.Prelude.{◌≡◌};
ghost use Rattle.eexec.specs.CipherBytes.{blank, hex_ending};

use decoding::{ending_above, ending_passed};
use source::Ending;

// How cipher bytes are written: two hexadecimal digits to a byte, or as they are.
#[derive(Clone, Copy, Debug, PartialEq, Eq)]
pub enum Form {
    Hex,
    Binary,
}

// Whether a byte is a blank of eexec data: tab, line feed, carriage return or space.
pub fn is_blank(b: u8) -> bool
    ensures { result ≡ blank b }
{
    matches!(b, b'\t' | b'\n' | b'\r' | b' ')
}

// How the hexadecimal form ends where what stands below does: well only before a cipher byte whose plain byte is kept.
pub fn hex_end(pending: Option<u8>, left: u8, ending: Ending) -> Ending
    ensures { result ≡ hex_ending pending left ending }
{
    match pending {
        None if left == 0 => ending_passed(ending),
        _ => ending_above(ending),
    }
}
