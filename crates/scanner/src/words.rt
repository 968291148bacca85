ghost use Rattle.std.specs.Prelude.{◌≡◌};
ghost use Rattle.scanner.specs.Numbers.{word_of};

use crate::integers::integer;
use crate::kinds::Kind;
use crate::radix::radix;
use crate::reals::is_real;
use source::Fault;

// What a run is: an integer, a radix number, a real, or else a name.
pub(crate) fn classify(s: &[u8]) -> Result<Kind, Fault>
    ensures { result ≡ word_of s.now }
{
    if let Some(v) = integer(s) {
        return Ok(Kind::Integer(v));
    }
    if let Some(number) = radix(s) {
        return number;
    }
    if is_real(s) {
        Ok(Kind::Real)
    } else {
        Ok(Kind::Name)
    }
}
