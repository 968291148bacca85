ghost use Rattle.std.specs.Prelude.{◌≡◌, ◌++◌, IfOk, vec_len};
ghost use Rattle.source.specs.Gone.{gone_to};
ghost use Rattle.t1dump.specs.Listed.{Listed, token_at, lines_in};

use crate::answers::{more_behind, put_answer};
use scanner::read_token;
use source::Source;
use std::alloc::{AllocError, Global};

// The size of the text area.
const AREA: usize = 4096;

// The size of the line area: no line is longer than four bytes for each byte of content, and 32 more.
const LINE: usize = 16416;

// A source whose tokens are listed, an area for their content, and one for a line.
#[derive(Drop)]
pub(crate) struct Lister<S> {
    source: S,
    area: Vec<u8>,
    line: Vec<u8>,
    ghost area_size: { vec_len area ≡ 4096 },
    ghost line_size: { vec_len line ≡ 16416 },
}

impl<S: Source + Drop> Lister<S> {
    pub(crate) fn new(heap: Global, source: S) -> Result<Lister<S>, AllocError>
        ensures { IfOk result (λ l. l.source ≡ source) }
    {
        Ok(Lister {
            source,
            area: vec![in heap; 0u8; AREA]?,
            line: vec![in heap; 0u8; LINE]?,
        })
    }

    // Reads one token and adds its line to what is printed; whether another token stands behind it. What is printed is no
    // field beside the areas: it grows by a call that is lent it, and all that stands in one place with it would then be
    // read again from memory for each token.
    fn list_one(&mut self, out: &mut Vec<u8>) -> Result<bool, AllocError>
        ensures left { S.held self.new.source ≡ gone_to S.model (S.held self.old.source) (token_at S.model (S.held self.old.source)).left (token_at S.model (S.held self.old.source)).peeked }
        ensures lists { IfOk result (λ more. Listed (token_at S.model (S.held self.old.source)) out.old.items more out.new.items) }
    {
        let answer = read_token(&mut self.source, &mut self.area);
        let n = put_answer(answer, &self.area, &mut self.line);
        out.extend_from_slice(&self.line[..n])?;
        Ok(more_behind(answer))
    }

    // The lines of all tokens, up to the end of the source or a fault, behind those that are there.
    pub(crate) fn list_all(mut self, mut out: Vec<u8>) -> Result<Vec<u8>, AllocError>
        ensures { IfOk result (λ lines. lines.items ≡ out.items ++ lines_in S.model (S.held self.source)) }
    {
        while self.list_one(&mut out)? {}
        Ok(out)
    }
}
