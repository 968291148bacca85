ghost use Rattle.std.specs.Prelude.{◌≡◌};
ghost use Rattle.source.specs.Hex.{paired, hex_byte_of, hex_turn_of};

use crate::bytes::{digit, is_white};

// What a byte is in hexadecimal data.
#[derive(Clone, Copy, Debug, PartialEq, Eq)]
pub enum HexByte {
    Digit(u8),
    White,
    Close,
    Stray,
}

// What a byte does in hexadecimal data.
#[derive(Clone, Copy, Debug, PartialEq, Eq)]
pub enum HexTurn {
    // a digit that waits for its second, or none
    Wait(Option<u8>),
    // a byte
    Put(u8),
    // the last byte, of a lone digit
    Last(u8),
    // the data is closed
    Done,
    Stray,
}

fn hex_byte(b: u8) -> HexByte
    ensures { result ≡ hex_byte_of b }
{
    match digit(b, 16) {
        Some(d) => HexByte::Digit(d),
        None if is_white(b) => HexByte::White,
        None if b == b'>' => HexByte::Close,
        None => HexByte::Stray,
    }
}

// A byte of two digits, the high half first. The remainder leaves every digit as it is, and makes a byte of any number.
pub fn hex_pair(high: u8, low: u8) -> u8
    ensures { result ≡ paired high low }
{
    16 * (high % 16) + low % 16
}

// What a byte does where a first digit is pending, or none: a lone last digit has 0 behind it.
pub fn hex_turn(pending: Option<u8>, b: u8) -> HexTurn
    ensures { result ≡ hex_turn_of pending (hex_byte_of b) }
{
    match hex_byte(b) {
        HexByte::White => HexTurn::Wait(pending),
        HexByte::Stray => HexTurn::Stray,
        HexByte::Digit(d) => match pending {
            None => HexTurn::Wait(Some(d)),
            Some(high) => HexTurn::Put(hex_pair(high, d)),
        },
        HexByte::Close => match pending {
            None => HexTurn::Done,
            Some(high) => HexTurn::Last(hex_pair(high, 0)),
        },
    }
}
