use given::Given;
use scanner::{Failure, Kind, Token, read_token};
use std::alloc::{AllocError, Global};
use std::fmt;

// What an area is filled with before a call.
const FILL: u8 = 0xAA;

// What a token call answered, and the area that it was lent.
#[derive(Drop)]
pub struct Answer {
    result: Result<Token, Failure>,
    area: Vec<u8>,
}

impl Answer {
    // Makes one call, with a new area of this size.
    pub fn of_call(
        heap: Global,
        source: &mut Given<'_>,
        size: usize,
    ) -> Result<Answer, AllocError> {
        let mut area = vec![in heap; FILL; size]?;
        let result = read_token(source, area.as_mut_slice());
        Ok(Answer { result, area })
    }

    // Whether a token was answered, and not the end, a fault or a refusal.
    pub fn is_token(&self) -> bool {
        matches!(self.result, Ok(token) if token.kind != Kind::End)
    }

    // The count and the content, the first n bytes of the area, in capital hexadecimal digits.
    fn show_area<W: fmt::Write>(&self, n: usize, f: &mut fmt::Formatter<W>) -> fmt::Result {
        write!(f, " n {n} ")?;
        if n == 0 {
            write!(f, "-")?;
        }
        for b in self.area.iter().take(n) {
            write!(f, "{b:02X}")?;
        }
        self.show_scribbles(n, f)
    }

    // Says so if a byte behind the first n is not as it was.
    fn show_scribbles<W: fmt::Write>(&self, n: usize, f: &mut fmt::Formatter<W>) -> fmt::Result {
        if self.area.iter().skip(n).any(|b| *b != FILL) {
            write!(f, " scribbled")?;
        }
        Ok(())
    }
}

impl fmt::Display for Answer {
    fn fmt<W: fmt::Write>(&self, f: &mut fmt::Formatter<W>) -> fmt::Result {
        match self.result {
            Ok(token) => {
                write!(f, "{} {}", token.kind, token.value())?;
                self.show_area(token.n, f)
            }
            Err(Failure::Fault(fault, n)) => {
                write!(f, "fault {fault}")?;
                self.show_area(n, f)
            }
            Err(refused @ Failure::Area) => {
                write!(f, "refused {}", refused.number())?;
                self.show_scribbles(0, f)
            }
        }
    }
}
