ghost use Rattle.std.specs.Prelude.{◌≡◌};
ghost use Rattle.scanner.specs.Digits.{digits_of};
ghost use Rattle.scanner.specs.Numbers.{twos_of, radix_in, radix_of};

use crate::digits::digits;
use crate::kinds::Kind;
use source::Fault;

// 32 bits read as two's complement; a value that has more is too large.
fn twos(v: u64) -> Result<Kind, Fault>
    ensures { result ≡ twos_of v }
{
    match u32::try_from(v) {
        Ok(bits) => Ok(Kind::Integer(bits.cast_signed())),
        Err(_) => Err(Fault::RadixRange),
    }
}

// Digits in the base that stands before `#`, if it is from 2 to 36.
fn in_base(base: &[u8], s: &[u8]) -> Option<Result<Kind, Fault>>
    ensures { result ≡ radix_in (digits_of 10 base.now) s.now }
{
    let base = u8::try_from(digits(base, 10)?).ok()?;
    if base < 2 || base > 36 {
        return None;
    }
    Some(twos(digits(s, base)?))
}

// A radix number: a base of one or two decimal digits, `#`, and one or more digits below the base.
pub(crate) fn radix(s: &[u8]) -> Option<Result<Kind, Fault>>
    ensures { result ≡ radix_of s.now }
{
    match s {
        [_, b'#', rest @ ..] => in_base(&s[..1], rest),
        [_, _, b'#', rest @ ..] => in_base(&s[..2], rest),
        _ => None,
    }
}
