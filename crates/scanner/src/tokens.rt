ghost use Rattle.std.specs.Prelude.{◌≡◌, ◌≤◌, length};
ghost use Rattle.source.specs.Reads.{Reads};
ghost use Rattle.scanner.specs.Scan.{Scans};
ghost use Rattle.scanner.specs.Examples.{Examples};
ghost use Rattle.scanner.specs.TokenLaws.{TokenLaws};
ghost use Rattle.scanner.specs.Tokens.{start_of, ended_token, judged_of, slash, less_of, greater_of, unfit, next_of, token_of};

use crate::bytes::take_if;
use crate::failure::Failure;
use crate::hex::hex_string;
use crate::kinds::{Kind, Token};
use crate::runs::run;
use crate::spaces::skip;
use crate::strings::string;
use crate::words::classify;
use source::{Ending, Fault, Source};

// What a special byte begins.
#[derive(Clone, Copy, Debug, PartialEq, Eq)]
pub enum Start {
    String,
    Slash,
    Less,
    Greater,
    Bracket(Kind),
    // `)`, and `%`, which cannot stand behind what is passed over
    Stray,
}

// What the first byte of a token begins; None where it begins a run.
fn start_of(b: u8) -> Option<Start>
    ensures { result ≡ start_of b }
{
    match b {
        b'(' => Some(Start::String),
        b'/' => Some(Start::Slash),
        b'<' => Some(Start::Less),
        b'>' => Some(Start::Greater),
        b'[' => Some(Start::Bracket(Kind::OpenArray)),
        b']' => Some(Start::Bracket(Kind::CloseArray)),
        b'{' => Some(Start::Bracket(Kind::OpenProcedure)),
        b'}' => Some(Start::Bracket(Kind::CloseProcedure)),
        b')' | b'%' => Some(Start::Stray),
        _ => None,
    }
}

// What the end is as a token; a damage passes up as it is.
fn ended(ending: Ending) -> Result<Token, Failure>
    ensures { result ≡ ended_token ending }
{
    match ending {
        Ending::Clean => Ok(Token {
            kind: Kind::End,
            n: 0,
        }),
        damaged => Err(Failure::from(damaged)),
    }
}

// The token that a run is.
fn judged(s: &[u8]) -> Result<Token, Failure>
    ensures { result ≡ judged_of s.now }
{
    let n = s.len();
    match classify(s) {
        Ok(kind) => Ok(Token { kind, n }),
        Err(fault) => Err(Failure::Fault(fault, n)),
    }
}

// The kind of a name, of whether a second `/` stands behind its first; the ending is none.
fn slashed(twice: Result<bool, Ending>) -> Kind
    ensures { result ≡ slash twice }
{
    match twice {
        Ok(true) => Kind::Immediate,
        Ok(false) | Err(_) => Kind::Literal,
    }
}

// The source and the area are two parameters of what scans: a struct of both is no plainer, since each of its methods would
// need two clauses more, that both fields keep their references.

// What stands behind a `<`: another one, or a hex string.
fn less<S: Source>(source: &mut S, area: &mut [u8]) -> Result<Token, Failure>
    ensures { Scans S.model less_of (S.held source.old) area.old result (S.held source.new) area.new }
{
    if take_if(source, b'<')? {
        return Ok(Token {
            kind: Kind::OpenDictionary,
            n: 0,
        });
    }
    hex_string(source, area).map(|n| Token {
        kind: Kind::HexString,
        n,
    })
}

// What stands behind a `>`: another one, or the `>` is stray.
fn greater<S: Source>(source: &mut S) -> Result<Token, Failure>
    ensures { Reads S.model greater_of (S.held source.old) result (S.held source.new) }
{
    if take_if(source, b'>')? {
        return Ok(Token {
            kind: Kind::CloseDictionary,
            n: 0,
        });
    }
    Err(Failure::Fault(Fault::StrayDelimiter, 0))
}

// The token that stands next.
fn next_token<S: Source>(source: &mut S, area: &mut [u8]) -> Result<Token, Failure>
    requires { 128 ≤ length area.old }
    ensures { Scans S.model next_of (S.held source.old) area.old result (S.held source.new) area.new }
{
    let b = match source.look() {
        Ok(b) => b,
        Err(ending) => return ended(ending),
    };
    let Some(start) = start_of(b) else {
        // a number or an executable name
        let n = run(source, area)?;
        return judged(&area[..n]);
    };
    let _ = source.take();
    match start {
        Start::String => string(source, area).map(|n| Token {
            kind: Kind::String,
            n,
        }),
        Start::Slash => {
            let kind = slashed(take_if(source, b'/'));
            run(source, area).map(|n| Token { kind, n })
        }
        Start::Less => less(source, area),
        Start::Greater => greater(source),
        Start::Bracket(kind) => Ok(Token { kind, n: 0 }),
        Start::Stray => Err(Failure::Fault(Fault::StrayDelimiter, 0)),
    }
}

// Whether a text area of this size is refused.
fn is_unfit(room: usize) -> bool
    ensures { result ≡ unfit room }
{
    room < 128 || room > 65535
}

// The next token, behind white bytes and comments, with its content at the start of the area. Refused where the area is
// under 128 or over 65,535 bytes.
#[tactic(auto, using(crate::proofs::TokenLawful::token_laws))]
pub fn read_token<S: Source>(source: &mut S, area: &mut [u8]) -> Result<Token, Failure>
    ensures scans { Scans S.model token_of (S.held source.old) area.old result (S.held source.new) area.new }
    ensures laws { TokenLaws }
    ensures examples { Examples }
{
    if is_unfit(area.len()) {
        return Err(Failure::Area);
    }
    skip(source);
    next_token(source, area)
}
