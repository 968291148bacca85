ghost use Rattle.source.specs.Reads.{Reads};
ghost use Rattle.eexec.specs.declared.cipherbytes.Form.TheVariants.{Hex, Binary};
ghost use Rattle.eexec.specs.Eexec.{plain_read_of, behind_of, answered};

use crate::cipher::Cipher;
use crate::cipherbytes::{hex_end, is_blank};
use decoding::ending_passed;
use source::{Damage, Ending, Source, digit, hex_pair};

impl Cipher {
    // The next plain byte in the binary form.
    pub(crate) fn next_binary<S: Source>(&mut self, below: &mut S) -> Result<u8, Ending>
        ensures { Reads S.model (plain_read_of Binary self.old.key) (S.held below.old) (answered Binary self.new.key result) (S.held below.new) }
    {
        let c = below.take().map_err(ending_passed)?;
        Ok(self.decipher(c))
    }

    // Drops so many plain bytes of the hexadecimal form, and goes on to the next one.
    pub(crate) fn next_hex<S: Source>(&mut self, dropped: u8, below: &mut S) -> Result<u8, Ending>
        ensures { Reads S.model (behind_of dropped Hex self.old.key) (S.held below.old) (answered Hex self.new.key result) (S.held below.new) }
    {
        let mut left = dropped;
        let mut pending = None;
        loop {
            let b = below
                .take()
                .map_err(|ending| hex_end(pending, left, ending))?;
            match (digit(b, 16), pending) {
                (Some(low), Some(high)) => {
                    let plain = self.decipher(hex_pair(high, low));
                    if left == 0 {
                        return Ok(plain);
                    }
                    left -= 1;
                    pending = None;
                }
                (Some(high), None) => pending = Some(high),
                (None, _) if is_blank(b) => {}
                (None, _) => return Err(Ending::Damaged(Damage::Stray, 0)),
            }
        }
    }
}
