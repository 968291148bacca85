ghost use Rattle.std.specs.Prelude.{◌≡◌, ◌==◌, length};
ghost use Rattle.listing.specs.Lines.{spaced};
ghost use Rattle.listing.specs.Puts.{Puts};
ghost use Rattle.listing.specs.Shown.{Small, form_of, shown_by};

use crate::decimals::put_integer;
use crate::names::Escaped;
use crate::refusal::Refusal;
use crate::shape::Shape;
use crate::sink::Sink;
use scanner::Kind;

// How the content of a token is shown.
#[derive(Clone, Copy, Debug, PartialEq, Eq)]
pub enum Form {
    // not at all
    Nothing,
    // a name, with its other bytes in octal
    Escaped,
    // a value, and not the content
    Decimal(i32),
    // as it is
    Plain,
    // two digits for each byte
    Hexadecimal,
}

pub(crate) fn form_of(kind: Kind) -> Form
    ensures is { result ≡ form_of kind }
    ensures small { Small result }
{
    match kind {
        Kind::Name | Kind::Literal | Kind::Immediate => Form::Escaped,
        Kind::Integer(value) => Form::Decimal(value),
        Kind::Real => Form::Plain,
        Kind::String | Kind::HexString => Form::Hexadecimal,
        _ => Form::Nothing,
    }
}

// Whether nothing is shown of a content.
fn shows_nothing(form: Form, content: &[u8]) -> bool
    ensures { result ≡ (length (shown_by form content.now) == 0) }
{
    match form {
        Form::Nothing => true,
        Form::Decimal(_) => false,
        Form::Escaped | Form::Plain | Form::Hexadecimal => content.is_empty(),
    }
}

// Puts a content as it is shown.
fn put_shown<S: Sink>(out: &mut S, form: Form, content: &[u8]) -> Result<(), Refusal>
    ensures { Puts S.room S.takes out.old (shown_by form content.now) result out.new }
{
    match form {
        Form::Nothing => Ok(()),
        Form::Escaped => Escaped::put_each(out, content),
        Form::Decimal(value) => put_integer(out, value),
        Form::Plain => out.put_all(content),
        Form::Hexadecimal => out.put_pairs(content),
    }
}

// Puts a blank and then a content as it is shown; nothing where nothing is shown of it.
pub(crate) fn put_content<S: Sink>(out: &mut S, form: Form, content: &[u8]) -> Result<(), Refusal>
    ensures { Puts S.room S.takes out.old (spaced (shown_by form content.now)) result out.new }
{
    if shows_nothing(form, content) {
        return Ok(());
    }
    out.put(b' ')?;
    put_shown(out, form, content)
}
