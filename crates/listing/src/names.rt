ghost use Rattle.std.specs.Prelude.{◌≡◌};
ghost use Rattle.listing.specs.Shown.{plain, escape};

use crate::refusal::Refusal;
use crate::shape::Shape;
use crate::sink::Sink;

// Whether a byte of a name is shown as it is.
fn is_plain(b: u8) -> bool
    ensures { result ≡ plain b }
{
    b.is_ascii_graphic() && b != b'\\'
}

// A name: its bytes as they are, and the others in octal.
pub(crate) struct Escaped;

impl Shape for Escaped {
    ghost shows = { escape };

    fn put_byte<S: Sink>(out: &mut S, b: u8) -> Result<(), Refusal> {
        if is_plain(b) {
            return out.put(b);
        }
        out.put_all(&[b'\\', b'0' + b / 64, b'0' + b / 8 % 8, b'0' + b % 8])
    }
}
