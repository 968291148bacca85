ghost use Rattle.scanner.specs.Scan.{Scans};
ghost use Rattle.scanner.specs.HexStrings.{hex_of};

use crate::bytes::next_byte;
use crate::content::put;
use crate::failure::Failure;
use source::{Fault, HexTurn, Source, hex_turn};

// Reads a hex string, behind its `<`, up to `>`.
pub(crate) fn hex_string<S: Source>(source: &mut S, area: &mut [u8]) -> Result<usize, Failure>
    ensures { Scans S.model hex_of (S.held source.old) area.old result (S.held source.new) area.new }
{
    let mut n = 0;
    let mut pending = None;
    loop {
        let b = next_byte(source).map_err(|fault| Failure::Fault(fault, n))?;
        match hex_turn(pending, b) {
            HexTurn::Done => return Ok(n),
            HexTurn::Stray => return Err(Failure::Fault(Fault::StrayInHex, n)),
            HexTurn::Wait(half) => pending = half,
            HexTurn::Put(v) => {
                n = put(area, n, v)?;
                pending = None;
            }
            HexTurn::Last(v) => return put(area, n, v),
        }
    }
}
