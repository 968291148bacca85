ghost use Rattle.std.specs.Prelude.{◌≡◌, ◌≤◌};
ghost use Rattle.scanner.specs.Scan.{Scans};
ghost use Rattle.scanner.specs.Strings.{turn_of, string_of, Level};

use crate::content::put;
use crate::failure::Failure;
use crate::pieces::{Piece, next_piece};
use source::Source;

// What a piece of a string does.
#[derive(Clone, Copy, Debug, PartialEq, Eq)]
pub enum Turn {
    // the byte is content, and so many parentheses are open behind it
    Put(u8, usize),
    Pass,
    // the string is closed
    Done,
}

// What a piece does where `depth` parentheses are open: those that balance each other are content. So no more are open
// than an area may hold bytes, and one more can be counted.
fn turn_of(piece: Piece, depth: usize) -> Turn
    requires { depth ≤ 9223372036854775807 }
    ensures is { result ≡ turn_of piece depth }
    ensures level { Level depth result }
{
    match piece {
        Piece::Nothing => Turn::Pass,
        Piece::Plain(b) => Turn::Put(b, depth),
        Piece::Open => Turn::Put(b'(', depth + 1),
        Piece::Close if depth == 0 => Turn::Done,
        Piece::Close => Turn::Put(b')', depth - 1),
    }
}

// Reads a string, behind its `(`, up to the `)` that balances it.
pub(crate) fn string<S: Source>(source: &mut S, area: &mut [u8]) -> Result<usize, Failure>
    ensures { Scans S.model string_of (S.held source.old) area.old result (S.held source.new) area.new }
{
    let mut n = 0;
    let mut depth = 0;
    loop {
        let piece = next_piece(source).map_err(|fault| Failure::Fault(fault, n))?;
        match turn_of(piece, depth) {
            Turn::Done => return Ok(n),
            Turn::Pass => {}
            Turn::Put(b, to) => {
                n = put(area, n, b)?;
                depth = to;
            }
        }
    }
}
