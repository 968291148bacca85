ghost use Rattle.std.specs.Prelude.{◌+◌, ◌*◌, ◌≤◌, length, IsOk};
ghost use Rattle.source.specs.Numbers.{fault_number};
ghost use Rattle.listing.specs.Lines.{Prints, token_text, ending_text, flaw_text, fault_text};
ghost use Rattle.listing.specs.Examples.{Examples};
ghost use Rattle.listing.specs.Laws.{Decimals, ToldApart};

use crate::contents::form_of;
use crate::refusal::Refusal;
use crate::text::Text;
use crate::words::word_of;
use scanner::Token;
use source::{Ending, Fault};

// Prints the line of a token with its content at a level: the level, the word of the kind, and the content as it is
// shown. The end has neither a level nor a content. An area of four bytes for each byte of content, and 32 more, is
// enough.
#[tactic(auto, using(crate::proofs::Worked::examples, crate::proofs::Lawful::told_apart))]
// inlined, so that the level and the kind that a caller knows are not asked again
#[inline(always)]
pub fn token_line(
    level: u8,
    token: Token,
    content: &[u8],
    line: &mut [u8],
) -> Result<usize, Refusal>
    ensures prints { Prints (token_text level token content.now) line.old result line.new }
    ensures enough { 4 * length content.now + 32 ≤ length line.old → IsOk result }
    ensures examples { Examples }
    ensures apart { ToldApart }
{
    let form = form_of(token.kind);
    let text = match word_of(token.kind) {
        None => Text::End,
        Some(word) => Text::Token(level, word, form, content),
    };
    // a line that may not fit is counted first, so that the area stays as it was if it does not
    if line.len() < 32 || content.len() > (line.len() - 32) / 4 {
        text.count(line.len())?;
    }
    text.write(line)
}

// Prints the line of an ending: a clean end, or a damage with its number and its depth.
pub fn ending_line(ending: Ending, line: &mut [u8]) -> Result<usize, Refusal>
    ensures prints { Prints (ending_text ending) line.old result line.new }
{
    let text = match ending {
        Ending::Clean => Text::End,
        Ending::Damaged(damage, depth) => Text::Fault(damage.number(), depth),
    };
    text.print(line)
}

// Prints the line of a fault: its number and its depth. An area of 32 bytes is enough.
pub fn fault_line(fault: Fault, line: &mut [u8]) -> Result<usize, Refusal>
    ensures prints { Prints (flaw_text fault) line.old result line.new }
    ensures enough { 32 ≤ length line.old → IsOk result }
    ensures decimals { Decimals }
{
    Text::Fault(fault.number(), fault.depth()).print(line)
}

// Prints the line of a fault's number with a depth that the caller gives, whatever the depth of the fault is. An area of 32
// bytes is enough.
pub fn fault_line_at(fault: Fault, depth: u8, line: &mut [u8]) -> Result<usize, Refusal>
    ensures prints { Prints (fault_text (fault_number fault) depth) line.old result line.new }
    ensures enough { 32 ≤ length line.old → IsOk result }
    ensures decimals { Decimals }
{
    Text::Fault(fault.number(), depth).print(line)
}
