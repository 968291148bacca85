ghost use Rattle.std.specs.Prelude.{◌≤◌, length, MatchResult, Some};
ghost use Rattle.listing.specs.Lines.{Prints, end_text, fault_text, token_by};
ghost use Rattle.listing.specs.Puts.{Full, Puts};
ghost use Rattle.listing.specs.Shown.{shown_by};
ghost use Rattle.listing.specs.Texts.{text_of};

use crate::area::Area;
use crate::contents::{Form, put_content};
use crate::decimals::put_number;
use crate::refusal::Refusal;
use crate::room::Room;
use crate::sink::Sink;

// What a line says.
#[derive(Clone, Copy)]
pub(crate) enum Text<'a> {
    // a clean end
    End,
    // a fault, by its number and its depth
    Fault(u8, u8),
    // a token: its level, its word, and its content as it is shown
    Token(u8, &'a str, Form, &'a [u8]),
}

// Puts the line of a clean end.
fn put_end<S: Sink>(out: &mut S) -> Result<(), Refusal>
    ensures { Puts S.room S.takes out.old end_text result out.new }
{
    out.put_all(b"end 0 0\n")
}

// Puts the line of a fault.
fn put_fault<S: Sink>(out: &mut S, number: u8, depth: u8) -> Result<(), Refusal>
    ensures { Puts S.room S.takes out.old (fault_text number depth) result out.new }
{
    out.put_all(b"fault ")?;
    put_number(out, u32::from(number))?;
    out.put(b' ')?;
    put_number(out, u32::from(depth))?;
    out.put(b'\n')
}

// Puts the line of a token.
fn put_token<S: Sink>(
    out: &mut S,
    level: u8,
    word: &str,
    form: Form,
    content: &[u8],
) -> Result<(), Refusal>
    ensures { Puts S.room S.takes out.old (token_by (Some word.now) level (shown_by form content.now)) result out.new }
{
    put_number(out, u32::from(level))?;
    out.put(b' ')?;
    out.put_all(word.as_bytes())?;
    put_content(out, form, content)?;
    out.put(b'\n')
}

impl Text<'_> {
    // Puts the line that says it.
    #[inline(always)]
    fn put<S: Sink>(self, out: &mut S) -> Result<(), Refusal>
        ensures { Puts S.room S.takes out.old (text_of self.entry) result out.new }
    {
        match self {
            Text::End => put_end(out),
            Text::Fault(number, depth) => put_fault(out, number, depth),
            Text::Token(level, word, form, content) => put_token(out, level, word, form, content),
        }
    }

    // Counts the line that says it: refused where it does not fit into so much room.
    #[inline(always)]
    pub(crate) fn count(self, room: usize) -> Result<(), Refusal>
        ensures { MatchResult result (λ _. length (text_of self.entry) ≤ room) (Full room (text_of self.entry)) }
    {
        self.put(&mut Room(room))
    }

    // Writes the line that says it, which is known to fit.
    #[inline(always)]
    pub(crate) fn write(self, line: &mut [u8]) -> Result<usize, Refusal>
        requires { length (text_of self) ≤ length line.old }
        ensures { Prints (text_of self.entry) line.old result line.new }
    {
        let mut area = Area { bytes: line, at: 0 };
        self.put(&mut area)?;
        Ok(area.at)
    }

    // Prints the line that says it. It is counted first, so that one that does not fit leaves the area as it was. Inlined,
    // so that what a caller knows of the line is not asked again in each of the two walks.
    #[inline(always)]
    pub(crate) fn print(self, line: &mut [u8]) -> Result<usize, Refusal>
        ensures { Prints (text_of self.entry) line.old result line.new }
    {
        self.count(line.len())?;
        self.write(line)
    }
}
