ghost use Rattle.std.specs.Prelude.{◌≡◌};
ghost use Rattle.scanner.specs.Numbers.{behind_sign, negative, signed, integer_of};

use crate::digits::digits;

// What stands behind an optional sign.
pub(crate) fn behind_sign(s: &[u8]) -> &[u8]
    ensures { result.now ≡ behind_sign s.now }
{
    match s {
        [b'+' | b'-', rest @ ..] => rest,
        _ => s,
    }
}

fn is_negative(s: &[u8]) -> bool
    ensures { result ≡ negative s.now }
{
    matches!(s, [b'-', ..])
}

// The value with its sign, if it has 32 signed bits.
fn with_sign(minus: bool, v: u64) -> Option<i32>
    ensures { result ≡ signed minus v }
{
    let v = i64::try_from(v).ok()?;
    i32::try_from(if minus { -v } else { v }).ok()
}

// An integer: an optional sign and digits, within 32 signed bits.
pub(crate) fn integer(s: &[u8]) -> Option<i32>
    ensures { result ≡ integer_of s.now }
{
    with_sign(is_negative(s), digits(behind_sign(s), 10)?)
}
