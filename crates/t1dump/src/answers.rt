ghost use Rattle.std.specs.Prelude.{◌≡◌, ◌+◌, ◌*◌, ◌≤◌, ◌++◌, length, take};
ghost use Rattle.scanner.specs.AnswerLaw.{said};
ghost use Rattle.listing.specs.Lines.{token_text, flaw_text};
ghost use Rattle.t1dump.specs.Texts.{goes_on, answer_text};
ghost use Rattle.t1dump.specs.Written.{Wrote};

use listing::{fault_line, token_line};
use scanner::{Failure, Kind, Token};
use source::Fault;

// Whether another token stands behind the answer.
pub(crate) fn more_behind(answer: Result<Token, Failure>) -> bool
    ensures { result ≡ goes_on answer }
{
    answer.is_ok_and(|token| token.kind != Kind::End)
}

// Writes the line of a token; four bytes for each byte of content, and 32 more, are enough.
fn put_token(token: Token, content: &[u8], line: &mut [u8]) -> usize
    requires { 4 * length content.now + 32 ≤ length line.old }
    ensures { Wrote (token_text 0 token content.now) line.old result line.new }
{
    token_line(0, token, content, line).unwrap()
}

// Writes the line of a fault.
fn put_fault(fault: Fault, line: &mut [u8]) -> usize
    requires { 32 ≤ length line.old }
    ensures { Wrote (flaw_text fault) line.old result line.new }
{
    fault_line(fault, line).unwrap()
}

// Writes the line of an answer whose content stands at the start of the area.
pub(crate) fn put_answer(answer: Result<Token, Failure>, area: &[u8], line: &mut [u8]) -> usize
    requires within { said answer ≤ length area.now }
    requires room { 4 * said answer + 32 ≤ length line.old }
    ensures { Wrote (answer_text answer (take (said answer) area.now)) line.old result line.new }
{
    match answer {
        Ok(token) => put_token(token, &area[..token.n], line),
        Err(Failure::Fault(fault, _)) => put_fault(fault, line),
        Err(Failure::Area) => 0,
    }
}
