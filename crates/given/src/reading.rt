ghost use Rattle.std.specs.Prelude.{◌≡◌, ◌≤◌, ◌++◌, drop, ◌⊎◌, IfErr, IfOk, OnOk, None, Some};
ghost use Rattle.std.specs.List.{repeat};
ghost use Rattle.std.specs.Result.{result_ok};
ghost use Rattle.std.specs.Str.Parse.{error_kind};
ghost use Rattle.std.specs.Vec.{vec_len};
ghost use Rattle.given.specs.Texts.{damage_of, ending_of, WhyNoEnding, pairs_of, why_no_pairs, part_of, WhyNoPart, bytes_of, WhyNoBytes, Adds, why_no_hex, number_text, error_text};
ghost use Rattle.given.specs.Examples.{Examples};
ghost use Rattle.given.specs.declared.reading.ReadError.TheVariants.{NoNumber, OutOfMemory};

use hex::{FromHex, FromHexError};
use source::{Damage, Ending};
use std::alloc::{AllocError, Global};
use std::error::Error;
use std::fmt;
use std::num::{IntErrorKind, ParseIntError};

// Why a text was not read.
#[derive(Clone, Copy, Debug, PartialEq, Eq)]
pub enum ReadError {
    // no slash parts a damage's number and its depth
    NoEnding,
    // no damage has the number
    NoDamage,
    // a depth, or how often a part's bytes come, is no number or too large
    NoNumber(IntErrorKind),
    // behind pairs that are good a byte stands alone
    LoneDigit,
    // a byte that is no hexadecimal digit stands in the place of one
    NoDigit,
    OutOfMemory,
}

// What the library prints where it reads no number: a `ReadError` keeps the kind of its error alone, to be `Copy`.
fn number_text(kind: IntErrorKind) -> &'static str
    ensures { result.now ≡ number_text kind }
{
    match kind {
        IntErrorKind::Empty => "cannot parse integer from empty string",
        IntErrorKind::InvalidDigit => "invalid digit found in string",
        IntErrorKind::PosOverflow => "number too large to fit in target type",
        IntErrorKind::NegOverflow => "number too small to fit in target type",
        IntErrorKind::Zero => "number would be zero for non-zero type",
    }
}

impl fmt::Display for ReadError {
    ghost output = { λ e. Some (error_text e) };

    fn fmt<W: fmt::Write>(&self, f: &mut fmt::Formatter<W>) -> fmt::Result {
        f.write_str(match self {
            ReadError::NoEnding => "no ending",
            ReadError::NoDamage => "no damage",
            ReadError::NoNumber(kind) => number_text(*kind),
            ReadError::LoneDigit => "a lone digit",
            ReadError::NoDigit => "no hexadecimal digit",
            ReadError::OutOfMemory => "memory allocation failed",
        })
    }
}

impl Error for ReadError {}

impl From<AllocError> for ReadError {
    ghost from_gives = { λ _ e. e ≡ OutOfMemory };

    fn from(_e: AllocError) -> ReadError {
        ReadError::OutOfMemory
    }
}

// No byte of two hexadecimal digits.
impl From<FromHexError> for ReadError {
    ghost from_gives = { λ hex e. e ≡ why_no_hex hex };

    fn from(e: FromHexError) -> ReadError {
        match e {
            FromHexError::OutOfMemory => ReadError::OutOfMemory,
            FromHexError::OddLength => ReadError::LoneDigit,
            _ => ReadError::NoDigit,
        }
    }
}

// No depth, or no count of how often a part's bytes come.
impl From<ParseIntError> for ReadError {
    ghost from_gives = { λ number e. e ≡ NoNumber (error_kind number) };

    fn from(e: ParseIntError) -> ReadError {
        ReadError::NoNumber(*e.kind())
    }
}

// Reads `clean`, or a damage's number, a slash and its depth.
#[tactic(auto, using(crate::proofs::Worked::worked))]
pub fn read_ending(text: &str) -> Result<Ending, ReadError>
    ensures is { result_ok result ≡ ending_of text.now }
    ensures why { IfErr result (λ e. WhyNoEnding text.now e) }
    ensures examples { Examples }
{
    if text == "clean" {
        return Ok(Ending::Clean);
    }
    let (number, depth) = text.split_once('/').ok_or(ReadError::NoEnding)?;
    let damage = damage_of(number).ok_or(ReadError::NoDamage)?;
    let depth = depth.parse::<u8>()?;
    Ok(Ending::Damaged(damage, depth))
}

// The damage whose number a text writes, with no sign and no zero before it.
#[tactic(auto, using(crate::proofs::Texts::parsed))]
fn damage_of(text: &str) -> Option<Damage>
    ensures { result ≡ damage_of text.now }
{
    if text.len() != 2 {
        return None;
    }
    Damage::try_from(text.parse::<u8>().ok()?).ok()
}

// Reads parts with points between them, or `-` for no byte.
pub fn read_bytes(alloc: Global, text: &str) -> Result<Vec<u8>, ReadError>
    ensures ok { IfOk result (λ v. bytes_of text.now ≡ Some v.items) }
    ensures err { IfErr result (λ e. (e ≡ OutOfMemory) ⊎ ((bytes_of text.now ≡ None) × WhyNoBytes text.now e)) }
{
    let mut bytes = Vec::new(alloc);
    if text == "-" {
        return Ok(bytes);
    }
    for part in text.split('.') {
        read_part(&mut bytes, part)?;
    }
    Ok(bytes)
}

// Puts the bytes of a part behind others: pairs of hexadecimal digits, with `x` and a number behind them if they come
// that often. Where they never come, the digits may be anything.
fn read_part(bytes: &mut Vec<u8>, part: &str) -> Result<(), ReadError>
    ensures ok { OnOk result (Adds (part_of part.now) bytes.old.items bytes.new.items) }
    ensures err { IfErr result (λ e. (e ≡ OutOfMemory) ⊎ ((part_of part.now ≡ None) × WhyNoPart part.now e)) }
{
    let Some((digits, times)) = part.split_once('x') else {
        return read_pairs(bytes, part);
    };
    let times = times.parse::<u32>()?;
    if times == 0 {
        return Ok(());
    }
    let start = bytes.len();
    read_pairs(bytes, digits)?;
    Ok(repeat_behind(bytes, start, times - 1)?)
}

// Puts the bytes of pairs of hexadecimal digits behind others. They are read from the left, up to the first bad pair.
fn read_pairs(bytes: &mut Vec<u8>, digits: &str) -> Result<(), ReadError>
    ensures ok { OnOk result (Adds (pairs_of digits.now) bytes.old.items bytes.new.items) }
    ensures err { IfErr result (λ e. (e ≡ OutOfMemory) ⊎ ((pairs_of digits.now ≡ None) × (e ≡ why_no_pairs digits.now))) }
{
    for pair in digits.as_bytes().chunks(2) {
        let byte = <[u8; 1]>::from_hex(pair)?;
        bytes.extend_from_slice(&byte)?;
    }
    Ok(())
}

// Puts the bytes from `start` on behind them so many times more. It goes byte by byte, so that no copy is held beside
// them, and that where there are none it ends at once, however often they come.
fn repeat_behind(bytes: &mut Vec<u8>, start: usize, times: u32) -> Result<(), AllocError>
    requires { start ≤ vec_len bytes.old }
    ensures { OnOk result (bytes.new.items ≡ bytes.old.items ++ repeat times (drop start bytes.old.items)) }
{
    let more = (bytes.len() - start)
        .checked_mul(times as usize)
        .ok_or(AllocError)?;
    for i in 0..more {
        let byte = bytes[start + i];
        bytes.push(byte)?;
    }
    Ok(())
}

#[cfg(test)]
mod tests {
    use super::*;
    use std::test::Fail;

    #[test]
    fn reads_endings(rt: HostRuntime) {
        for (text, want) in [
            ("clean", Ok(Ending::Clean)),
            ("21/0", Ok(Ending::Damaged(Damage::Stray, 0))),
            ("24/255", Ok(Ending::Damaged(Damage::LoneDigit, 255))),
            ("", Err(ReadError::NoEnding)),
            ("20/1", Err(ReadError::NoDamage)),
            ("22", Err(ReadError::NoEnding)),
            ("22/", Err(ReadError::NoNumber(IntErrorKind::Empty))),
            (
                "22/256",
                Err(ReadError::NoNumber(IntErrorKind::PosOverflow)),
            ),
            (
                "22/1/1",
                Err(ReadError::NoNumber(IntErrorKind::InvalidDigit)),
            ),
            ("+22/1", Err(ReadError::NoDamage)),
            ("022/1", Err(ReadError::NoDamage)),
            // the number is looked at before the depth
            ("20/256", Err(ReadError::NoDamage)),
            ("/", Err(ReadError::NoDamage)),
        ] {
            assert_eq!(rt; read_ending(text), want, "{text}");
        }
    }

    #[test]
    fn reads_bytes(rt: HostRuntime) -> Result<(), Fail> {
        for (text, want) in [
            ("-", ""),
            ("", ""),
            ("2F", "/"),
            ("6a6B", "jk"),
            ("2F.61x3.20", "/aaa "),
            ("6162x2.", "abab"),
            ("61x0.62x+1", "b"),
            ("6gx0.63", "c"),
            ("x4294967295.64", "d"),
        ] {
            assert_eq!(rt;
                read_bytes(rt.alloc(), text)?.as_slice(),
                want.as_bytes(),
                "{text}"
            );
        }
        Ok(())
    }

    // The error of a text that gives no bytes.
    fn refused(alloc: Global, text: &str) -> Option<ReadError> {
        read_bytes(alloc, text).err()
    }

    #[test]
    fn refuses_what_gives_no_bytes(rt: HostRuntime) {
        for (text, want) in [
            ("6", ReadError::LoneDigit),
            ("616", ReadError::LoneDigit),
            ("6g", ReadError::NoDigit),
            ("--", ReadError::NoDigit),
            ("61x", ReadError::NoNumber(IntErrorKind::Empty)),
            ("61x-1", ReadError::NoNumber(IntErrorKind::InvalidDigit)),
            ("61x1x1", ReadError::NoNumber(IntErrorKind::InvalidDigit)),
            ("61,62", ReadError::NoDigit),
            (
                "61x4294967296",
                ReadError::NoNumber(IntErrorKind::PosOverflow),
            ),
        ] {
            assert_eq!(rt; refused(rt.alloc(), text), Some(want), "{text}");
        }
    }

    // Of several faults the first counts: of pairs from the left, of a count before its digits, of parts in their order.
    #[test]
    fn refuses_for_the_first_reason(rt: HostRuntime) {
        for (text, want) in [
            ("6g6", ReadError::NoDigit),
            ("61g", ReadError::LoneDigit),
            ("6gx", ReadError::NoNumber(IntErrorKind::Empty)),
            ("6x2", ReadError::LoneDigit),
            ("61.6.6g", ReadError::LoneDigit),
            ("61.6g.6", ReadError::NoDigit),
            ("-.6g", ReadError::LoneDigit),
        ] {
            assert_eq!(rt; refused(rt.alloc(), text), Some(want), "{text}");
        }
    }

    #[test]
    fn says_why(rt: HostRuntime) -> Result<(), Fail> {
        for (error, want) in [
            (ReadError::NoEnding, "no ending"),
            (ReadError::NoDamage, "no damage"),
            (
                ReadError::NoNumber(IntErrorKind::Empty),
                "cannot parse integer from empty string",
            ),
            (
                ReadError::NoNumber(IntErrorKind::InvalidDigit),
                "invalid digit found in string",
            ),
            (
                ReadError::NoNumber(IntErrorKind::PosOverflow),
                "number too large to fit in target type",
            ),
            (ReadError::LoneDigit, "a lone digit"),
            (ReadError::NoDigit, "no hexadecimal digit"),
            (ReadError::OutOfMemory, "memory allocation failed"),
        ] {
            assert_eq!(rt; format!(in rt.alloc(); "{error}")?.as_str(), want);
        }
        Ok(())
    }

    // The library's own error of a text says what is said here of its kind.
    #[test]
    fn says_what_the_library_says(rt: HostRuntime) -> Result<(), Fail> {
        for text in ["", "1g", "256"] {
            let Err(e) = text.parse::<u8>() else {
                panic!(rt; "{text} is a number");
            };
            assert_eq!(rt;
                format!(in rt.alloc(); "{e}")?.as_str(),
                number_text(*e.kind())
            );
        }
        Ok(())
    }
}
