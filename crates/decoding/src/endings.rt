ghost use Rattle.std.specs.Prelude.{◌≡◌};
ghost use Rattle.decoding.specs.Ends.{passed, above};

use source::{Damage, Ending};

// How a filter ends that ends with what stands below: a damage is one filter deeper, 255 at most.
pub fn ending_passed(ending: Ending) -> Ending
    ensures { result ≡ passed ending }
{
    match ending {
        Ending::Clean => Ending::Clean,
        Ending::Damaged(damage, depth) => Ending::Damaged(damage, depth.saturating_add(1)),
    }
}

// How a filter ends that needs a byte where what stands below has ended.
pub fn ending_above(ending: Ending) -> Ending
    ensures { result ≡ above ending }
{
    match ending {
        Ending::Clean => Ending::Damaged(Damage::CutShort, 0),
        damaged => ending_passed(damaged),
    }
}
