ghost use Rattle.std.specs.Prelude.{◌≡◌, Some};
ghost use Rattle.scanner.specs.Kinds.{kind_text, value_of};

use std::fmt;

// What a token is.
#[derive(Clone, Copy, Debug, PartialEq, Eq)]
pub enum Kind {
    // the source ended, cleanly
    End,
    // an executable name
    Name,
    // a name behind `/`
    Literal,
    // a name behind `//`
    Immediate,
    // a number with 32 signed bits, and its value
    Integer(i32),
    Real,
    // a string in parentheses
    String,
    // a string of hexadecimal digits
    HexString,
    // `[`
    OpenArray,
    // `]`
    CloseArray,
    // `{`
    OpenProcedure,
    // `}`
    CloseProcedure,
    // `<<`
    OpenDictionary,
    // `>>`
    CloseDictionary,
}

// A token: its kind, and how many bytes of content stand at the start of the area.
#[derive(Clone, Copy, Debug, PartialEq, Eq)]
pub struct Token {
    pub kind: Kind,
    pub n: usize,
}

impl Token {
    // The value of an integer, 0 for every other kind.
    pub fn value(self) -> i32
        ensures { result ≡ value_of self.kind }
    {
        match self.kind {
            Kind::Integer(value) => value,
            _ => 0,
        }
    }
}

impl Kind {
    // Its name, or the bracket itself.
    pub fn word(self) -> &'static str
        ensures { result.now ≡ kind_text self }
    {
        match self {
            Kind::End => "end",
            Kind::Name => "name",
            Kind::Literal => "literal",
            Kind::Immediate => "immediate",
            Kind::Integer(_) => "integer",
            Kind::Real => "real",
            Kind::String => "string",
            Kind::HexString => "hexstring",
            Kind::OpenArray => "[",
            Kind::CloseArray => "]",
            Kind::OpenProcedure => "{",
            Kind::CloseProcedure => "}",
            Kind::OpenDictionary => "<<",
            Kind::CloseDictionary => ">>",
        }
    }
}

// Its word.
impl fmt::Display for Kind {
    ghost output = { λ k. Some (kind_text k) };

    fn fmt<W: fmt::Write>(&self, f: &mut fmt::Formatter<W>) -> fmt::Result {
        f.write_str(self.word())
    }
}
