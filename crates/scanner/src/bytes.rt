ghost use Rattle.source.specs.Reads.{Reads};
ghost use Rattle.scanner.specs.Takes.{byte_of, take_if_of};

use source::{Ending, Fault, Source};

// Takes a byte that is needed: an end in its place is a fault.
pub(crate) fn next_byte<S: Source>(source: &mut S) -> Result<u8, Fault>
    ensures { Reads S.model byte_of (S.held source.old) result (S.held source.new) }
{
    Ok(source.take()?)
}

// Takes the next byte if it is `wanted`, and says whether it was. The ending is no such byte.
pub(crate) fn take_if<S: Source>(source: &mut S, wanted: u8) -> Result<bool, Ending>
    ensures { Reads S.model (take_if_of wanted) (S.held source.old) result (S.held source.new) }
{
    if source.look()? != wanted {
        return Ok(false);
    }
    let _ = source.take();
    Ok(true)
}
