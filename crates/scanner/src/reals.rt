ghost use Rattle.std.specs.Prelude.{◌≡◌};
ghost use Rattle.scanner.specs.Numbers.{behind_digits, behind_point, only_digits, exponent, real_of};

use crate::integers::behind_sign;

// What stands behind the decimal digits at the start.
fn behind_digits(s: &[u8]) -> &[u8]
    ensures { result.now ≡ behind_digits s.now }
{
    let mut rest = s;
    while let [b'0'..=b'9', behind @ ..] = rest {
        rest = behind;
    }
    rest
}

// What stands behind an optional point.
fn behind_point(s: &[u8]) -> &[u8]
    ensures { result.now ≡ behind_point s.now }
{
    s.strip_prefix(b".").unwrap_or(s)
}

// Some digits, and nothing else.
fn is_digits(s: &[u8]) -> bool
    ensures { result ≡ only_digits s.now }
{
    !s.is_empty() && behind_digits(s).is_empty()
}

// Nothing, or `e` or `E`, an optional sign and digits.
fn is_exponent(s: &[u8]) -> bool
    ensures { result ≡ exponent s.now }
{
    match s {
        [] => true,
        [b'e' | b'E', rest @ ..] => is_digits(behind_sign(rest)),
        _ => false,
    }
}

// A real: an optional sign, digits, at most one point, at least one digit, and an optional exponent.
pub(crate) fn is_real(s: &[u8]) -> bool
    ensures { result ≡ real_of s.now }
{
    let whole = behind_sign(s);
    let point = behind_digits(whole);
    let fraction = behind_point(point);
    let tail = behind_digits(fraction);
    (point.len() < whole.len() || tail.len() < fraction.len()) && is_exponent(tail)
}
