ghost use Rattle.std.specs.Prelude.{◌≡◌};
ghost use Rattle.scanner.specs.Classes.{class_of};

use source::is_white;

// What a byte is to the scanner.
#[derive(Clone, Copy, Debug, PartialEq, Eq)]
pub enum Class {
    White,
    Special,
    Regular,
}

// The class of a byte: six are white, ten are special, all others are regular.
pub(crate) fn class_of(b: u8) -> Class
    ensures { result ≡ class_of b }
{
    if is_white(b) {
        return Class::White;
    }
    match b {
        b'(' | b')' | b'<' | b'>' | b'[' | b']' | b'{' | b'}' | b'/' | b'%' => Class::Special,
        _ => Class::Regular,
    }
}
