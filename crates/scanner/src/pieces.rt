ghost use Rattle.std.specs.Prelude.{◌≡◌, ◌<◌, IfSome};
ghost use Rattle.source.specs.Reads.{Reads};
ghost use Rattle.scanner.specs.Pieces.{octal_of, number_of, meaning_of, opening_of, escape_of, piece_of, OctalMeaning};

use crate::bytes::{next_byte, take_if};
use source::{Fault, Source, digit};

// A piece of a string.
#[derive(Clone, Copy, Debug, PartialEq, Eq)]
pub enum Piece {
    // `(`
    Open,
    // `)`
    Close,
    // a byte of the content
    Plain(u8),
    // an escaped line end, which gives nothing
    Nothing,
}

// What the byte behind a backslash begins.
#[derive(Clone, Copy, Debug, PartialEq, Eq)]
pub enum Escape {
    // it stands for this byte
    Stands(u8),
    // the line end 10
    Feed,
    // the line end 13, perhaps with a 10 behind it
    Return,
    // an octal number, of which this is the first digit
    Octal(u8),
}

// What a byte of a string begins.
#[derive(Clone, Copy, Debug, PartialEq, Eq)]
pub enum Opening {
    Open,
    Close,
    Escape,
    Return,
    Plain,
}

fn meaning_of(b: u8) -> Escape
    ensures is { result ≡ meaning_of b }
    ensures small { OctalMeaning result }
{
    match b {
        10 => Escape::Feed,
        13 => Escape::Return,
        b'n' => Escape::Stands(10),
        b'r' => Escape::Stands(13),
        b't' => Escape::Stands(9),
        b'b' => Escape::Stands(8),
        b'f' => Escape::Stands(12),
        b'0'..=b'7' => Escape::Octal(b - b'0'),
        _ => Escape::Stands(b),
    }
}

fn opening_of(b: u8) -> Opening
    ensures { result ≡ opening_of b }
{
    match b {
        b'(' => Opening::Open,
        b')' => Opening::Close,
        b'\\' => Opening::Escape,
        13 => Opening::Return,
        _ => Opening::Plain,
    }
}

// Takes the next byte if it is an octal digit. Not one function with `take_if`: that would take a closure from a byte to its
// value, and a model of it in each of the two contracts, for two lines of code.
fn octal<S: Source>(source: &mut S) -> Option<u8>
    ensures reads { Reads S.model octal_of (S.held source.old) result (S.held source.new) }
    ensures small { IfSome result (λ d. d < 8) }
{
    let d = digit(source.look().ok()?, 8)?;
    let _ = source.take();
    Some(d)
}

// The byte of an octal number of one to three digits, whose first is d; of the value the last eight bits.
fn octal_number<S: Source>(source: &mut S, d: u8) -> u8
    requires { d < 8 }
    ensures { Reads S.model (number_of d) (S.held source.old) result (S.held source.new) }
{
    let Some(second) = octal(source) else {
        return d
    };
    let Some(third) = octal(source) else {
        return 8 * d + second
    };
    ((64 * u16::from(d) + 8 * u16::from(second) + u16::from(third)) % 256) as u8
}

// What stands behind a backslash.
fn escaped<S: Source>(source: &mut S) -> Result<Piece, Fault>
    ensures { Reads S.model escape_of (S.held source.old) result (S.held source.new) }
{
    let b = next_byte(source)?;
    match meaning_of(b) {
        Escape::Stands(v) => Ok(Piece::Plain(v)),
        Escape::Feed => Ok(Piece::Nothing),
        Escape::Return => {
            let _ = take_if(source, 10);
            Ok(Piece::Nothing)
        }
        Escape::Octal(d) => Ok(Piece::Plain(octal_number(source, d))),
    }
}

// The next piece of a string; a line end of 13, or of 13 and 10, is the byte 10.
pub(crate) fn next_piece<S: Source>(source: &mut S) -> Result<Piece, Fault>
    ensures { Reads S.model piece_of (S.held source.old) result (S.held source.new) }
{
    let b = next_byte(source)?;
    match opening_of(b) {
        Opening::Open => Ok(Piece::Open),
        Opening::Close => Ok(Piece::Close),
        Opening::Plain => Ok(Piece::Plain(b)),
        Opening::Escape => escaped(source),
        Opening::Return => {
            let _ = take_if(source, 10);
            Ok(Piece::Plain(10))
        }
    }
}
