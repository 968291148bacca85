ghost use Rattle.std.specs.Prelude.{◌≡◌};
ghost use Rattle.source.specs.Bytes.{white, digit_of};

// Whether a byte is white: null, tab, line feed, form feed, carriage return or blank.
pub fn is_white(b: u8) -> bool
    ensures { result ≡ white b }
{
    // most bytes are none, and are told by the first comparison
    b <= 32 && matches!(b, 0 | 9 | 10 | 12 | 13 | 32)
}

// The value of a digit in a base, letters of either case being 10 to 35; None for any other byte, and for a digit that is
// not below the base.
pub fn digit(b: u8, base: u8) -> Option<u8>
    ensures { result ≡ digit_of base b }
{
    let value = match b {
        b'0'..=b'9' => b - b'0',
        b'A'..=b'Z' => b - b'A' + 10,
        b'a'..=b'z' => b - b'a' + 10,
        _ => return None,
    };
    if value < base { Some(value) } else { None }
}
