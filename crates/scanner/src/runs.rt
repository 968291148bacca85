ghost use Rattle.std.specs.Prelude.{◌≤◌, length};
ghost use Rattle.scanner.specs.Scan.{Scans};
ghost use Rattle.scanner.specs.Runs.{run_of};

use crate::class::{Class, class_of};
use crate::content::put;
use crate::failure::Failure;
use source::Source;

// The most bytes of a run.
const MOST: usize = 127;

// Reads a run of regular bytes into the area, and takes the one white byte behind it.
pub(crate) fn run<S: Source>(source: &mut S, area: &mut [u8]) -> Result<usize, Failure>
    requires { 128 ≤ length area.old }
    ensures { Scans S.model run_of (S.held source.old) area.old result (S.held source.new) area.new }
{
    let mut n = 0;
    while let Ok(b) = source.look() {
        match class_of(b) {
            Class::Special => return Ok(n),
            Class::White => {
                let _ = source.take();
                return Ok(n);
            }
            Class::Regular => {
                let _ = source.take();
                // no run is longer than these places, and every area is
                n = put(&mut area[..MOST], n, b)?;
            }
        }
    }
    Ok(n)
}
