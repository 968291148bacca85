ghost use Rattle.std.specs.Prelude.{◌≡◌, ◌≤◌};
ghost use Rattle.scanner.specs.Digits.{digits_of};
ghost use Rattle.scanner.specs.Capped.{capped};

use source::digit;

// No number of the language is larger, so larger values are all read as this one.
const CAP: u64 = 4294967296;

// The value of one or more digits in a base, 2^32 at most; None where there is none, or one is not below the base.
pub(crate) fn digits(s: &[u8], base: u8) -> Option<u64>
    requires least { 2 ≤ base }
    requires most { base ≤ 36 }
    ensures { result ≡ capped (digits_of base s.now) }
{
    if s.is_empty() {
        return None;
    }
    let mut v: u64 = 0;
    for b in s {
        let d = digit(*b, base)?;
        v = (v * u64::from(base) + u64::from(d)).min(CAP);
    }
    Some(v)
}
