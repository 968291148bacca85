use crate::filtercase::FilterCase;
use anyhow::bail;
use filter::{AnyKind, Filter, Layer};
use given::Given;
use source::{Ending, Source};
use std::alloc::Global;
use std::fmt;
use std::fmt::Write;

// The most takes that `*` makes.
const MOST_TAKES: usize = 4096;

// What a look or a take answered.
#[derive(Clone, Copy)]
struct Answer(Result<u8, Ending>);

// A byte as `x` and two digits, an ending as its two numbers.
impl fmt::Display for Answer {
    fn fmt<W: fmt::Write>(&self, f: &mut fmt::Formatter<W>) -> fmt::Result {
        match self.0 {
            Ok(b) => write!(f, "x{b:02X}"),
            Err(ending) => write!(f, "end {ending}"),
        }
    }
}

// Takes up to the end.
fn take_all<S: Source>(source: &mut S, line: &mut String) -> anyhow::Result<()> {
    for i in 0..MOST_TAKES {
        if i > 0 {
            line.push_str(" ")?;
        }
        let answer = source.take();
        write!(line, "{}", Answer(answer))?;
        if answer.is_err() {
            break;
        }
    }
    Ok(())
}

// Asks as the letters say: `l` looks, `t` takes, `*` takes up to the end.
fn ask_all<S: Source>(source: &mut S, asks: &str, line: &mut String) -> anyhow::Result<()> {
    for (i, ask) in asks.bytes().enumerate() {
        if i > 0 {
            line.push_str(" ")?;
        }
        match ask {
            b'l' => write!(line, "?{}", Answer(source.look()))?,
            b't' => write!(line, "{}", Answer(source.take()))?,
            // `*`
            _ => take_all(source, line)?,
        }
    }
    Ok(())
}

// What can say how it stands, and then how what is below it stands.
trait Shown: Source + Drop {
    fn show(self, line: &mut String) -> anyhow::Result<()>;
}

// How many bytes are left, and whether what comes next was looked at.
impl Shown for Given<'_> {
    fn show(self, line: &mut String) -> anyhow::Result<()> {
        write!(line, " ; left {}", self.left())?;
        if self.was_looked_at() {
            line.push_str(" looked")?;
        }
        Ok(())
    }
}

// How many bytes a filter holds, and how it has ended, if it has.
impl<S: Shown> Shown for Layer<AnyKind, S> {
    fn show(self, line: &mut String) -> anyhow::Result<()> {
        write!(line, " ; held {}", self.held_count())?;
        if let Some(ending) = self.ending() {
            write!(line, " ended {ending}")?;
        }
        self.into_below().show(line)
    }
}

// Asks the topmost, and says what it and each below it then holds.
fn play<S: Shown>(heap: Global, mut top: S, asks: &str) -> anyhow::Result<String> {
    let mut line = String::new(heap);
    ask_all(&mut top, asks, &mut line)?;
    top.show(&mut line)?;
    Ok(line)
}

// Makes the filters of a case, and plays them.
pub fn play_filters(heap: Global, case: &FilterCase<'_>) -> anyhow::Result<String> {
    let source = Given::new(case.bytes.as_slice(), case.ending);
    match case.kinds.as_slice() {
        [a] => play(heap, Layer::new(*a, source), case.asks),
        [a, b] => play(heap, Layer::new(*b, Layer::new(*a, source)), case.asks),
        _ => bail!("one filter or two"),
    }
}
