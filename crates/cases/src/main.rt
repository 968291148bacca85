// Makes the token calls that its input lists, a case to a line, and prints what they answer.
//
// A line is `AREAS ENDING BYTES`: the sizes of the text areas, one for each call, with a `*` behind them if the last
// one repeats until something else than a token is answered; `clean`, or the number and depth of a damage, as `22/1`;
// and the bytes of the source, as `2F.61x128.20`. Empty lines and those that begin with `#` are passed over.
#![tactic(auto)]

mod answer;
mod case;

use answer::Answer;
use case::Case;
use given::Given;
use std::alloc::Global;
use std::fmt::Write;
use std::io;

// The most calls that a case makes.
const MOST_CALLS: usize = 64;

// Makes a case's calls: their answers, the number of bytes left, and whether what comes next was looked at.
fn play(heap: Global, case: &Case) -> anyhow::Result<String> {
    let mut source = Given::new(case.bytes.as_slice(), case.ending);
    let mut line = String::new(heap);
    let mut going = true;
    for i in 0..MOST_CALLS {
        let Some(size) = case.area(i, going) else {
            break;
        };
        if i > 0 {
            line.push_str(" | ")?;
        }
        let answer = Answer::of_call(heap, &mut source, size)?;
        write!(line, "{answer}")?;
        going = answer.is_token();
    }
    write!(line, " ; left {}", source.left())?;
    if source.was_looked_at() {
        line.push_str(" looked")?;
    }
    Ok(line)
}

// The program `filter_cases` has this loop too: one for both would bring the runtime and `anyhow` into a library.
fn run(rt: &HostRuntime) -> anyhow::Result<()> {
    let heap = rt.alloc();
    let text = io::read_to_string(heap, rt.stdin())?;
    for line in text
        .lines()
        .filter(|line| !line.is_empty() && !line.starts_with('#'))
    {
        let case = case::read_case(heap, line)?;
        rt.println(play(heap, &case)?)?;
    }
    Ok(())
}

fn main(rt: HostRuntime) -> anyhow::Result<()> {
    run(&rt)
}
