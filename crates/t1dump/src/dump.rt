ghost use Rattle.std.specs.Prelude.{◌≡◌, IfOk};
ghost use Rattle.t1dump.specs.Examples.{Examples};
ghost use Rattle.t1dump.specs.LinesLaw.{LinesLaw};
ghost use Rattle.t1dump.specs.Texts.{printed};

use crate::lister::Lister;
use source::Memory;
use std::alloc::{AllocError, Global};

// The most bytes of input.
pub(crate) const LIMIT: usize = 65536;

// What is printed of an input: the lines of its tokens, or `too large` where it has more than 65,536 bytes.
#[tactic(auto, using(crate::proofs::ListUses::lines_law, crate::proofs::Worked::worked))]
pub(crate) fn dump_input(heap: Global, input: &[u8]) -> Result<Vec<u8>, AllocError>
    ensures prints { IfOk result (λ out. out.items ≡ printed input.now) }
    ensures law { LinesLaw }
    ensures examples { Examples }
{
    if input.len() > LIMIT {
        return Vec::from_slice(heap, b"too large\n");
    }
    Lister::new(heap, Memory::new(input))?.list_all(Vec::new(heap))
}
