ghost use Rattle.std.specs.Prelude.{◌≡◌};
ghost use Rattle.source.specs.Reads.{Reads};
ghost use Rattle.eexec.specs.Eexec.{lead_of, head_of, hex_bytes_of};

use crate::cipherbytes::is_blank;
use source::{Ending, Source, digit, hex_pair};

// Passes over blanks and takes the byte behind them.
fn take_behind_blanks<S: Source>(below: &mut S) -> Result<u8, Ending>
    ensures { Reads S.model lead_of (S.held below.old) result (S.held below.new) }
{
    loop {
        let b = below.take()?;
        if !is_blank(b) {
            return Ok(b);
        }
    }
}

// Takes the first four bytes behind blanks, which tell the form.
pub(crate) fn take_head<S: Source>(below: &mut S) -> Result<[u8; 4], Ending>
    ensures { Reads S.model head_of (S.held below.old) result (S.held below.new) }
{
    Ok([
        take_behind_blanks(below)?,
        below.take()?,
        below.take()?,
        below.take()?,
    ])
}

// The two cipher bytes of four hexadecimal digits, which begin the hexadecimal form; None where another byte is among them.
#[tactic(auto, using(crate::proofs::HeadUses::other_among))]
pub(crate) fn hex_bytes(head: [u8; 4]) -> Option<[u8; 2]>
    ensures { result ≡ hex_bytes_of head }
{
    let [a, b, c, d] = head;
    Some([
        hex_pair(digit(a, 16)?, digit(b, 16)?),
        hex_pair(digit(c, 16)?, digit(d, 16)?),
    ])
}
