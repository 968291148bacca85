ghost use Rattle.std.specs.Prelude.{decimal};
ghost use Rattle.std.specs.Fmt.{signed_decimal};
ghost use Rattle.listing.specs.Puts.{Puts};

use crate::refusal::Refusal;
use crate::sink::Sink;

// By code of this crate: `write!` promises nothing where it fails, and a line is refused only where it does not fit; and what
// is printed for the record is to rest on no further crate of the kit.

// Puts a number in decimal: what stands before its last digit, then that digit.
pub(crate) fn put_number<S: Sink>(out: &mut S, n: u32) -> Result<(), Refusal>
    ensures { Puts S.room S.takes out.old (decimal n) result out.new }
{
    if n >= 10 {
        put_number(out, n / 10)?;
    }
    out.put(b'0' + (n % 10) as u8)
}

// Puts a signed number in decimal, with `-` before a negative one.
pub(crate) fn put_integer<S: Sink>(out: &mut S, value: i32) -> Result<(), Refusal>
    ensures { Puts S.room S.takes out.old (signed_decimal value) result out.new }
{
    if value < 0 {
        out.put(b'-')?;
    }
    put_number(out, value.unsigned_abs())
}
