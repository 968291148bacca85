ghost use Rattle.scanner.specs.Scan.{Scans};
ghost use Rattle.speed.specs.Fill.{fill_of};

use source::Source;

// Fills an area from the front with what a source gives, up to its end: how many bytes that were.
pub fn fill<S: Source>(source: &mut S, area: &mut [u8]) -> usize
    ensures { Scans S.model fill_of (S.held source.old) area.old result (S.held source.new) area.new }
{
    for (n, place) in area.iter_mut().enumerate() {
        match source.take() {
            Err(_) => return n,
            Ok(b) => *place = b,
        }
    }
    area.len()
}
