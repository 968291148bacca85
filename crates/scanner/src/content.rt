ghost use Rattle.scanner.specs.Puts.{Puts};

use crate::failure::Failure;
use source::Fault;

// Writes one more byte of content behind the first n, and says how many there are then; a full area is a fault. The area and
// the count are two parameters, as a struct of both would need a clause more that it keeps its reference (see `tokens`).
pub(crate) fn put(area: &mut [u8], n: usize, b: u8) -> Result<usize, Failure>
    ensures { Puts area.old n b result area.new }
{
    // by index, since the contract of `get_mut` leaves open what the area is where there is no such place
    if n >= area.len() {
        return Err(Failure::Fault(Fault::Limit, n));
    }
    area[n] = b;
    Ok(n + 1)
}
